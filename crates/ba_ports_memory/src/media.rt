//! What a disk in memory holds: its contents, what is pending, and the failure or stop that is armed.
ghost use Rattle.std.specs.Prelude.{◌≡◌, ◌+◌, ◌≤◌, [], ◌∷◌, ◌++◌, length, None, Some, true, false, is_some, IfOk, IfErr, OnOk, OnErr};
ghost use Rattle.ba_ports.specs.Disk.{Armament};
ghost use Rattle.ba_ports_memory.specs.DiskValue.{bytes_of, course, course_by, with_call, changed_by, issued, synced_by, chosen, imaged, all_imaged};
ghost use Rattle.ba_ports_memory.specs.inside.MediumFits.{left_of, shown_or};
ghost use Rattle.ba_ports.specs.declared.requests.Request.TheVariants as request;

use crate::changes::{Change, all_left, left, make, push_into};
use ba_core::{List, Memory, Octets};
use ba_ports::{Call, Image, Request};
use std::alloc::Global;
use std::marker::Model;

/// What comes at a counted call.
#[derive(Clone, Copy, Debug, PartialEq, Eq)]
pub enum Trouble {
    /// The call fails, and has no effect.
    Fails,
    /// The machine stops.
    Stops(Image),
}

/// What comes at the counted call of this number, counted from 1.
#[derive(Clone, Copy, Debug, PartialEq, Eq)]
pub struct Armed {
    pub number: u64,
    pub trouble: Trouble,
}

/// What a counted call meets.
#[derive(Clone, Copy, Debug, PartialEq, Eq)]
pub enum Course {
    GoesOn,
    /// The machine has stopped.
    Refused,
    Met(Trouble),
}

/// A stop, and the contents that it leaves.
#[derive(Debug, Drop)]
pub struct Stopped {
    pub image: Image,
    pub left: Octets,
}

/// What a disk in memory holds. Each call takes its memory first, and changes nothing where it finds none.
#[derive(Debug)]
pub struct Medium {
    alloc: Global,
    /// The contents at the last restart.
    base: Octets,
    /// What a read gives, once something was issued.
    shown: Option<Octets>,
    /// What was issued since the last restart.
    changes: Vec<Change>,
    /// How many of these are synced.
    settled: usize,
    calls: Vec<Call>,
    armed: Option<Armed>,
    stopped: Option<Stopped>,
}

/// One call lets all of it go, so that no caller looks into the parts.
impl Drop for Medium {
    fn drop(self) {
        let Medium {
            alloc: _,
            base: _base,
            shown: _shown,
            changes: _changes,
            settled: _,
            calls: _calls,
            armed: _,
            stopped: _stopped,
        } = self;
    }
}

impl Model for Medium {
    ghost use Rattle.std.specs.Prelude.{drop};
    ghost use Rattle.ba_ports_memory.specs.DiskValue.{MediumValue};

    ghost Value = { MediumValue };

    ghost use Rattle.ba_ports_memory.specs.inside.MediumFits.{image_of, synced_of, MediumFits};

    ghost view = { λ m. record {
      synced = synced_of m.base m.changes.items m.settled;
      pending = drop m.settled m.changes.items;
      calls = m.calls.items;
      armed = m.armed;
      stopped = image_of m.stopped;
    } };

    ghost invariant = { λ m. MediumFits m.base m.shown m.changes.items m.settled m.stopped };
}

impl Medium {
    /// These bytes, synced, and nothing armed.
    pub fn of(alloc: Global, bytes: Octets) -> Medium
        ensures { result ≡ record { synced = bytes; pending = []; calls = []; armed = None; stopped = None } }
    {
        Medium {
            alloc,
            base: bytes,
            shown: None,
            changes: Vec::new(alloc),
            settled: 0,
            calls: Vec::new(alloc),
            armed: None,
            stopped: None,
        }
    }

    /// What a read gives.
    pub fn bytes(&self) -> &[u8]
        ensures { result.now ≡ bytes_of self.now }
    {
        match &self.shown {
            Some(bytes) => bytes.as_slice(),
            None => self.base.as_slice(),
        }
    }

    /// What the next counted call meets.
    pub fn course(&self) -> Course
        ensures { result ≡ course self.now }
    {
        if self.stopped.is_some() {
            return Course::Refused;
        }
        course_by(self.armed, self.calls.len() as u64 + 1)
    }

    /// A counted call that issues a change, where nothing keeps it from that.
    #[tactic(auto, using(crate::proofs::DiskCalls::going))]
    pub fn change(&mut self, request: Request, change: Change) -> Result<(), Memory>
        ensures ok { OnOk result (self.new ≡ with_call request self.old (changed_by (course self.old) self.old (issued change self.old))) }
        ensures err { OnErr result (self.new ≡ self.old) }
    {
        match self.course() {
            Course::GoesOn => self.issue(request, false, change),
            Course::Refused => self.note(request),
            Course::Met(Trouble::Fails) => self.fail(request),
            Course::Met(Trouble::Stops(image)) => self.stop_with(request, change, image),
        }
    }

    /// A counted call that syncs, where nothing keeps it from that.
    #[tactic(auto, using(crate::proofs::DiskCalls::going))]
    pub fn sync(&mut self) -> Result<(), Memory>
        ensures ok { OnOk result (self.new ≡ with_call request.Sync self.old (synced_by (course self.old) self.old)) }
        ensures err { OnErr result (self.new ≡ self.old) }
    {
        match self.course() {
            Course::GoesOn => self.settle(),
            Course::Refused => self.note(Request::Sync),
            Course::Met(Trouble::Fails) => self.fail(Request::Sync),
            Course::Met(Trouble::Stops(image)) => self.stop(image),
        }
    }

    /// Arms trouble at the k-th counted call from now, in the place of what is armed.
    pub fn arm(&mut self, k: u32, trouble: Trouble)
        ensures { self.new ≡ record self.old { armed = Some (record { number = length self.old.calls + k; trouble = trouble }) } }
    {
        let number = self.calls.len() as u64 + u64::from(k);
        self.armed = Some(Armed { number, trouble });
    }

    /// Takes back what is armed.
    pub fn disarm(&mut self)
        ensures { self.new ≡ record self.old { armed = None } }
    {
        self.armed = None;
    }

    /// The machine has stopped.
    pub fn is_stopped(&self) -> bool
        ensures { result ≡ is_some self.now.stopped }
    {
        self.stopped.is_some()
    }

    /// Makes what the stop left the contents, or all that was issued where no stop has come.
    pub fn restart(&mut self)
        ensures { self.new ≡ record self.old {
          synced = all_imaged (chosen self.old.stopped) self.old.pending self.old.synced;
          pending = [];
          stopped = None;
        } }
    {
        let shown = self.shown.take();
        self.changes.clear();
        self.settled = 0;
        match self.stopped.take() {
            Some(stop) => self.base = stop.left,
            None => {
                if let Some(bytes) = shown {
                    self.base = bytes;
                }
            }
        }
    }

    fn note(&mut self, request: Request) -> Result<(), Memory>
        ensures ok { OnOk result (self.new ≡ record self.old { calls = self.old.calls ++ record { request = request; failed = true } ∷ [] }) }
        ensures err { OnErr result (self.new ≡ self.old) }
    {
        push_call(&mut self.calls, request, true)
    }

    fn fail(&mut self, request: Request) -> Result<(), Memory>
        ensures ok { OnOk result (self.new ≡ record self.old {
          calls = self.old.calls ++ record { request = request; failed = true } ∷ [];
          armed = None;
        }) }
        ensures err { OnErr result (self.new ≡ self.old) }
    {
        push_call(&mut self.calls, request, true)?;
        self.armed = None;
        Ok(())
    }

    fn issue(&mut self, request: Request, failed: bool, change: Change) -> Result<(), Memory>
        requires { self.old.stopped ≡ None }
        ensures ok { OnOk result (self.new ≡ record self.old {
          pending = self.old.pending ++ change ∷ [];
          calls = self.old.calls ++ record { request = request; failed = failed } ∷ [];
        }) }
        ensures err { OnErr result (self.new ≡ self.old) }
    {
        if self.changes.reserve(1).is_err() {
            return Err(Memory);
        }
        if self.calls.reserve(1).is_err() {
            return Err(Memory);
        }
        let shown = self.shown.take();
        match change_shown(self.alloc, self.base.as_slice(), shown, &change) {
            Ok(next) => {
                self.shown = Some(next);
                push_into(&mut self.changes, change);
                push_into(&mut self.calls, Call { request, failed });
                Ok(())
            }
            Err(back) => {
                self.shown = back;
                Err(Memory)
            }
        }
    }

    fn settle(&mut self) -> Result<(), Memory>
        requires { self.old.stopped ≡ None }
        ensures ok { OnOk result (self.new ≡ record self.old {
          synced = bytes_of self.old;
          pending = [];
          calls = self.old.calls ++ record { request = request.Sync; failed = false } ∷ [];
        }) }
        ensures err { OnErr result (self.new ≡ self.old) }
    {
        push_call(&mut self.calls, Request::Sync, false)?;
        self.settled = self.changes.len();
        Ok(())
    }

    fn stop(&mut self, image: Image) -> Result<(), Memory>
        ensures ok { OnOk result (self.new ≡ record self.old {
          calls = self.old.calls ++ record { request = request.Sync; failed = true } ∷ [];
          armed = None;
          stopped = Some image;
        }) }
        ensures err { OnErr result (self.new ≡ self.old) }
    {
        let left = left_of(
            self.alloc,
            image,
            &self.changes,
            self.settled,
            self.base.as_slice(),
        )?;
        push_call(&mut self.calls, Request::Sync, true)?;
        self.armed = None;
        self.stopped = Some(Stopped { image, left });
        Ok(())
    }

    fn stop_with(&mut self, request: Request, change: Change, image: Image) -> Result<(), Memory>
        requires { self.old.stopped ≡ None }
        ensures ok { OnOk result (self.new ≡ record self.old {
          pending = self.old.pending ++ change ∷ [];
          calls = self.old.calls ++ record { request = request; failed = true } ∷ [];
          armed = None;
          stopped = Some image;
        }) }
        ensures err { OnErr result (self.new ≡ self.old) }
    {
        let before = left_of(
            self.alloc,
            image,
            &self.changes,
            self.settled,
            self.base.as_slice(),
        )?;
        let left = left(self.alloc, image, &change, before.as_slice())?;
        self.issue(request, true, change)?;
        self.armed = None;
        self.stopped = Some(Stopped { image, left });
        Ok(())
    }
}

/// What an image leaves of the changes behind the settled ones.
fn left_of(
    alloc: Global,
    image: Image,
    changes: &[Change],
    settled: usize,
    base: &[u8],
) -> Result<Octets, Memory>
    requires { settled ≤ length changes.now }
    ensures { IfOk result (λ left. left ≡ left_of image base.now changes.now settled) }
{
    let (done, pending) = changes.split_at(settled);
    let synced = all_left(alloc, Image::New, done, base)?;
    all_left(alloc, image, pending, synced.as_slice())
}

/// What a read gives after a change, or what it gave before where there is no memory.
fn change_shown(
    alloc: Global,
    base: &[u8],
    shown: Option<Octets>,
    change: &Change,
) -> Result<Octets, Option<Octets>>
    ensures ok { IfOk result (λ next. next ≡ imaged (Image.New) change.now (shown_or base.now shown)) }
    ensures err { IfErr result (λ back. back ≡ shown) }
{
    let Some(shown) = shown else {
        return match left(alloc, Image::New, change, base) {
            Ok(next) => Ok(next),
            Err(_) => Err(None),
        };
    };
    let mut bytes = shown.into_vec();
    match make(change, &mut bytes) {
        Ok(()) => Ok(List::of(bytes)),
        Err(_) => Err(Some(List::of(bytes))),
    }
}

/// What is armed comes at the call of its number.
fn course_by(armed: Option<Armed>, number: u64) -> Course
    ensures { result ≡ course_by armed number }
{
    match armed {
        Some(armed) if armed.number == number => Course::Met(armed.trouble),
        _ => Course::GoesOn,
    }
}

/// Puts a call last.
fn push_call(calls: &mut Vec<Call>, request: Request, failed: bool) -> Result<(), Memory>
    ensures ok { OnOk result (calls.new.items ≡ calls.old.items ++ record { request = request; failed = failed } ∷ []) }
    ensures err { OnErr result (calls.new.items ≡ calls.old.items) }
{
    match calls.push(Call { request, failed }) {
        Ok(()) => Ok(()),
        Err(_) => Err(Memory),
    }
}
