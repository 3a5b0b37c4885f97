//! Reads a text, at once or in pieces.
ghost use Rattle.std.specs.Prelude.{◌≡◌, ◌≢◌, ◌++◌, ℕ, List, [], Result, Err, IfOk};
ghost use Rattle.ba_tree.specs.declared.trees.Tree.{Tree};
ghost use Rattle.ba_xml.specs.Feeding.{IsFed, IsStarved};
ghost use Rattle.ba_xml.specs.Reading.{IsReadOf, IsToldOf, IsFirstCause};
ghost use Rattle.ba_xml.specs.inside.Progress.{ComesTo, GoesOn, told_by, answer_by};
ghost use Rattle.ba_xml_grammar.specs.Places.{IsAnswerOf};
ghost use Rattle.ba_xml_reader.specs.inside.Machine.{answer_of};
ghost use Rattle.ba_xml_reader.specs.inside.Readings.{Going};
ghost use Rattle.ba_xml_words.specs.declared.faults.Reason.{Reason};
ghost use Rattle.ba_xml_words.specs.declared.faults.XmlFault.{XmlFault};
ghost use Rattle.ba_xml_words.specs.declared.faults.XmlFault.TheVariants as fault;

use ba_core::Memory;
use ba_tree::Tree;
use ba_xml_reader::{Refusal, Scan, Taken, begun};
use ba_xml_words::{Reason, XmlFault};
use std::alloc::Global;
use std::mem;

/// Reads the bytes as a text of XML 1.0 with namespaces, in the part that this product takes, and gives its root. Else the
/// answer is why and at which byte they are no text: of all causes in the table of places the first, where the bytes end
/// before the text does `Truncated` at their end, or `Memory` for want of memory, which says nothing of them.
/// A text has at most 262,144 bytes, 32 levels and 32 attributes in a tag.
pub fn read(alloc: Global, bytes: &[u8]) -> Result<Tree, XmlFault>
    ensures answer { IsReadOf bytes.now result }
{
    let mut reader = Reader::new(alloc)?;
    reader.feed(bytes)?;
    reader.end()
}

/// A text that is read in pieces, however it is cut: what is answered of it is what `read` answers of the pieces joined.
/// A fault is told as soon as it shows, and stays. So does want of memory, with which nothing is said of the bytes.
pub struct Reader {
    alloc: Global,
    progress: Progress,
}

/// How far a reader has come.
#[derive(Drop)]
enum Progress {
    /// So many bytes are taken.
    Reads(Scan, u64),
    /// What was read is given up.
    Faulted(Reason, u64),
    /// For want of memory.
    Starved,
}

// Giving a reader up is one call. Else each place that does would have a proof of its own over all that is read.
impl Drop for Reader {
    fn drop(self) {
        let Reader { alloc: _, progress } = self;
        give_up(progress);
    }
}

fn give_up(_progress: Progress) {}

impl Reader {
    /// A reader that was fed nothing.
    pub fn new(alloc: Global) -> Result<Reader, Memory>
        ensures { IfOk result (λ reader. IsFed reader []) }
    {
        let scan = begun(alloc)?;
        Ok(Reader {
            alloc,
            progress: Progress::Reads(scan, 0),
        })
    }

    /// Takes on the next bytes. It tells a fault exactly where the bytes so far have a cause, which is the first, and then
    /// each later call tells it too. That the bytes so far end too early is no fault here. After `Memory` each later call
    /// answers `Memory`.
    pub fn feed(&mut self, piece: &[u8]) -> Result<(), XmlFault>
        ensures fed { (bytes : List ℕ) → IsFed self.old bytes → result ≢ Err fault.Memory → IsFed self.new (bytes ++ piece.now) }
        ensures told { (bytes : List ℕ) → IsFed self.new bytes → IsToldOf bytes result }
        ensures stays { (bytes : List ℕ) (reason : Reason) (place : ℕ) → IsFed self.old bytes → IsFirstCause bytes reason place
            → result ≡ Err (fault.At reason place) }

        ensures starves { result ≡ Err fault.Memory → IsStarved self.new }
        ensures starved { IsStarved self.old → result ≡ Err fault.Memory }
    {
        let progress = mem::replace(&mut self.progress, Progress::Starved);
        self.progress = progress.after(self.alloc, piece);
        self.progress.told()
    }

    /// The answer, where the text ends here.
    pub fn end(self) -> Result<Tree, XmlFault>
        ensures answer { (bytes : List ℕ) → IsFed self bytes → IsAnswerOf bytes result }
        ensures starved { IsStarved self → result ≡ Err fault.Memory }
    {
        let Reader { alloc: _, progress } = self;
        progress.answer()
    }
}

impl Progress {
    // With this piece, which is looked at only where all before it is taken.
    fn after(self, alloc: Global, piece: &[u8]) -> Progress
        ensures { GoesOn self piece.now result }
    {
        match self {
            Progress::Reads(scan, taken) => read_piece(alloc, scan, taken, piece),
            Progress::Faulted(reason, place) => Progress::Faulted(reason, place),
            Progress::Starved => Progress::Starved,
        }
    }

    fn told(&self) -> Result<(), XmlFault>
        ensures { result ≡ told_by self.now }
    {
        match self {
            Progress::Reads(_, _) => Ok(()),
            Progress::Faulted(reason, place) => Err(XmlFault::At {
                reason: *reason,
                place: *place,
            }),
            Progress::Starved => Err(XmlFault::Memory),
        }
    }

    fn answer(self) -> Result<Tree, XmlFault>
        ensures { result ≡ answer_by self }
    {
        match self {
            Progress::Reads(scan, taken) => end_of(scan, taken),
            Progress::Faulted(reason, place) => Err(XmlFault::At { reason, place }),
            Progress::Starved => Err(XmlFault::Memory),
        }
    }
}

fn end_of(scan: Scan, taken: u64) -> Result<Tree, XmlFault>
    ensures { result ≡ answer_of (Going scan taken) }
{
    match scan.finish() {
        Some(tree) => Ok(tree),
        None => Err(XmlFault::At {
            reason: Reason::Truncated,
            place: taken,
        }),
    }
}

// Takes the bytes, up to their end or to one with which no text goes on.
fn read_piece(alloc: Global, scan: Scan, taken: u64, piece: &[u8]) -> Progress
    ensures { ComesTo (Going scan taken) piece.now result }
{
    let mut scan = scan;
    let mut taken = taken;
    let mut at = 0;
    while at < piece.len() {
        let Ok(Taken { count, refusal }) = scan.read_on(alloc, taken, &piece[at..]) else {
            return Progress::Starved;
        };
        if let Some(Refusal { reason, place }) = refusal {
            return Progress::Faulted(reason, place);
        }
        taken += count as u64;
        at += count;
    }
    Progress::Reads(scan, taken)
}
