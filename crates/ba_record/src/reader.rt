//! Reads a record.
ghost use Rattle.std.specs.Prelude.{◌≡◌, IfOk, IfErr, IsTrue};
ghost use Rattle.ba_record.specs.declared.records.Record.{Record};
ghost use Rattle.ba_record.specs.Coding.{coding, InRange};
ghost use Rattle.ba_record.specs.Reading.{read, onward, Explains, whole, reading, read_record, is_kind, ReadsTo};
ghost use Rattle.ba_record.specs.Reading.{read_node, read_scope, read_end, read_part, read_enrolled, read_refused};
ghost use Rattle.ba_record.specs.Reading.{read_received, read_acted, read_decided, read_chosen, read_ticked, read_asked};

use crate::fields::{FieldFault, Fields};
use crate::records::{Record, RecordFault};
use std::alloc::Global;

impl<'a> Fields<'a> {
    #[tactic(auto, using(crate::proofs::Onward::explained_onward))]
    fn node(&mut self) -> Result<Record, FieldFault>
        ensures ok { IfOk result (λ r. read_node self.old.rest.now ≡ read r self.new.rest.now) }
        ensures fault { IfErr result (Explains (read_node self.old.rest.now) self.new.rest.now) }
    {
        let number = self.node_number()?;
        let base = self.base()?;
        Ok(Record::Node(number, base))
    }

    #[tactic(auto, using(crate::proofs::Onward::explained_onward))]
    fn scope(&mut self) -> Result<Record, FieldFault>
        ensures ok { IfOk result (λ r. read_scope self.old.rest.now ≡ read r self.new.rest.now) }
        ensures fault { IfErr result (Explains (read_scope self.old.rest.now) self.new.rest.now) }
    {
        let counter = self.counter()?;
        let kind = self.kind()?;
        let deadline = self.deadline()?;
        let upward = self.upward()?;
        Ok(Record::Scope(counter, kind, deadline, upward))
    }

    #[tactic(auto, using(crate::proofs::Onward::explained_onward))]
    fn end(&mut self) -> Result<Record, FieldFault>
        ensures ok { IfOk result (λ r. read_end self.old.rest.now ≡ read r self.new.rest.now) }
        ensures fault { IfErr result (Explains (read_end self.old.rest.now) self.new.rest.now) }
    {
        let counter = self.counter()?;
        let scope = self.counter()?;
        let protocol = self.protocol()?;
        let participant = self.endpoint()?;
        Ok(Record::End(counter, scope, protocol, participant))
    }

    #[tactic(auto, using(crate::proofs::Onward::explained_onward))]
    fn part(&mut self) -> Result<Record, FieldFault>
        ensures ok { IfOk result (λ r. read_part self.old.rest.now ≡ read r self.new.rest.now) }
        ensures fault { IfErr result (Explains (read_part self.old.rest.now) self.new.rest.now) }
    {
        let counter = self.counter()?;
        let protocol = self.protocol()?;
        let registration = self.endpoint()?;
        Ok(Record::Part(counter, protocol, registration))
    }

    #[tactic(auto, using(crate::proofs::Onward::explained_onward))]
    fn enrolled(&mut self) -> Result<Record, FieldFault>
        ensures ok { IfOk result (λ r. read_enrolled self.old.rest.now ≡ read r self.new.rest.now) }
        ensures fault { IfErr result (Explains (read_enrolled self.old.rest.now) self.new.rest.now) }
    {
        let counter = self.counter()?;
        let coordinator = self.endpoint()?;
        Ok(Record::Enrolled(counter, coordinator))
    }

    #[tactic(auto, using(crate::proofs::Onward::explained_onward))]
    fn refused(&mut self) -> Result<Record, FieldFault>
        ensures ok { IfOk result (λ r. read_refused self.old.rest.now ≡ read r self.new.rest.now) }
        ensures fault { IfErr result (Explains (read_refused self.old.rest.now) self.new.rest.now) }
    {
        let counter = self.counter()?;
        let code = self.from_1(2)?;
        Ok(Record::Refused(counter, code))
    }

    #[tactic(auto, using(crate::proofs::Onward::explained_onward))]
    fn received(&mut self) -> Result<Record, FieldFault>
        ensures ok { IfOk result (λ r. read_received self.old.rest.now ≡ read r self.new.rest.now) }
        ensures fault { IfErr result (Explains (read_received self.old.rest.now) self.new.rest.now) }
    {
        let counter = self.counter()?;
        let notice = self.notice()?;
        Ok(Record::Received(counter, notice))
    }

    #[tactic(auto, using(crate::proofs::Onward::explained_onward))]
    fn acted(&mut self) -> Result<Record, FieldFault>
        ensures ok { IfOk result (λ r. read_acted self.old.rest.now ≡ read r self.new.rest.now) }
        ensures fault { IfErr result (Explains (read_acted self.old.rest.now) self.new.rest.now) }
    {
        let counter = self.counter()?;
        let act = self.act()?;
        Ok(Record::Acted(counter, act))
    }

    #[tactic(auto, using(crate::proofs::Onward::explained_onward))]
    fn decided(&mut self) -> Result<Record, FieldFault>
        ensures ok { IfOk result (λ r. read_decided self.old.rest.now ≡ read r self.new.rest.now) }
        ensures fault { IfErr result (Explains (read_decided self.old.rest.now) self.new.rest.now) }
    {
        let counter = self.counter()?;
        let verdict = self.verdict()?;
        Ok(Record::Decided(counter, verdict))
    }

    #[tactic(auto, using(crate::proofs::Onward::explained_onward))]
    fn chosen(&mut self) -> Result<Record, FieldFault>
        ensures ok { IfOk result (λ r. read_chosen self.old.rest.now ≡ read r self.new.rest.now) }
        ensures fault { IfErr result (Explains (read_chosen self.old.rest.now) self.new.rest.now) }
    {
        let counter = self.counter()?;
        let choice = self.from_1(3)?;
        Ok(Record::Chosen(counter, choice))
    }

    #[tactic(auto, using(crate::proofs::Onward::explained_onward))]
    fn ticked(&mut self) -> Result<Record, FieldFault>
        ensures ok { IfOk result (λ r. read_ticked self.old.rest.now ≡ read r self.new.rest.now) }
        ensures fault { IfErr result (Explains (read_ticked self.old.rest.now) self.new.rest.now) }
    {
        let counter = self.counter()?;
        Ok(Record::Ticked(counter))
    }

    #[tactic(auto, using(crate::proofs::Onward::explained_onward))]
    fn asked(&mut self) -> Result<Record, FieldFault>
        ensures ok { IfOk result (λ r. read_asked self.old.rest.now ≡ read r self.new.rest.now) }
        ensures fault { IfErr result (Explains (read_asked self.old.rest.now) self.new.rest.now) }
    {
        let counter = self.counter()?;
        Ok(Record::Asked(counter))
    }

    // The fields of the kind with this number.
    fn record(&mut self, kind: u8) -> Result<Record, FieldFault>
        requires { IsTrue (is_kind kind) }
        ensures ok { IfOk result (λ r. read_record kind self.old.rest.now ≡ read r self.new.rest.now) }
        ensures fault { IfErr result (Explains (read_record kind self.old.rest.now) self.new.rest.now) }
    {
        match kind {
            1 => self.node(),
            2 => self.scope(),
            3 => self.end(),
            4 => self.part(),
            5 => self.enrolled(),
            6 => self.refused(),
            7 => self.received(),
            8 => self.acted(),
            9 => self.decided(),
            10 => self.chosen(),
            11 => self.ticked(),
            _ => self.asked(),
        }
    }

    // The record, of which nothing may be left over.
    fn whole(&self, r: Record) -> Result<Record, FieldFault>
        ensures ok { IfOk result (λ same. whole r self.now.rest.now ≡ read same self.now.rest.now) }
        ensures fault { IfErr result (λ why. (why ≡ FieldFault.Bad) × Explains (whole r self.now.rest.now) self.now.rest.now why) }
    {
        if self.is_empty() {
            return Ok(r);
        }
        Err(FieldFault::Bad)
    }

    #[tactic(auto, using(crate::proofs::Onward::explained_onward))]
    fn whole_record(&mut self, kind: u8) -> Result<Record, FieldFault>
        requires { IsTrue (is_kind kind) }
        ensures ok { IfOk result (λ r. onward (read_record kind self.old.rest.now) whole ≡ read r self.new.rest.now) }
        ensures fault { IfErr result (Explains (onward (read_record kind self.old.rest.now) whole) self.new.rest.now) }
    {
        let r = self.record(kind)?;
        self.whole(r)
    }
}

/// The record whose coding these bytes are. Otherwise they are no record, at the least place where they go
/// wrong: `BadKind` where the first byte is the number of no kind, `BadField` at the first byte of the first
/// field that is outside its range, or at the first byte left over, and `Short` at their length where they end
/// inside a field.
#[tactic(auto, using(crate::proofs::ExactRecords::is_coding, crate::proofs::ExactRecords::only_memory))]
pub fn get(alloc: Global, bytes: &[u8]) -> Result<Record, RecordFault>
    ensures coding { IfOk result (λ r. InRange r × (bytes.now ≡ coding r)) }
    ensures only { (r : Record) → InRange r → bytes.now ≡ coding r → IfErr result (λ fault. fault ≡ RecordFault.Memory) }
    ensures reading { IfOk result (λ r. reading bytes.now ≡ Ok r) }
    ensures least_place { IfErr result (ReadsTo bytes.now) }
{
    read_all(alloc, bytes)
}

fn read_all(alloc: Global, bytes: &[u8]) -> Result<Record, RecordFault>
    ensures reading { IfOk result (λ r. reading bytes.now ≡ Ok r) }
    ensures least_place { IfErr result (ReadsTo bytes.now) }
{
    let Some((kind, rest)) = bytes.split_first() else {
        return Err(RecordFault::Short(0));
    };
    if *kind == 0 || *kind > 12 {
        return Err(RecordFault::BadKind);
    }
    let mut fields = Fields::new(alloc, rest);
    match fields.whole_record(*kind) {
        Ok(r) => Ok(r),
        Err(FieldFault::Memory) => Err(RecordFault::Memory),
        Err(FieldFault::Bad) => {
            let place = bytes.len().saturating_sub(fields.len());
            Err(RecordFault::BadField(place as u64))
        }
        Err(FieldFault::Short) => Err(RecordFault::Short(bytes.len() as u64)),
    }
}
