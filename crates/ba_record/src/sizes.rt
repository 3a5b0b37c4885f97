//! How long a record's coding is.
ghost use Rattle.std.specs.Prelude.{◌≡◌, ◌≤◌, length};
ghost use Rattle.ba_message.specs.declared.endpoints.TheConstants.{MOST_ENDPOINT_BYTES};
ghost use Rattle.std.specs.Int.{w64, to_le_bytes};
ghost use Rattle.ba_message.specs.Endpoints.{Fits};
ghost use Rattle.ba_record.specs.Coding.{coding, InRange, IsUpward, endpoint_coding, option_coding, upward_coding};

use crate::records::Record;
use ba_core::Protocol;
use ba_message::Epr;

/// The length of the record's coding, in bytes.
#[tactic(auto, using(crate::proofs::Parts::scope_length, crate::proofs::Parts::base_is_short))]
pub fn size_of(r: &Record) -> u64
    requires { InRange r.now }
    ensures { result ≡ length (coding r.now) }
{
    match r {
        Record::Node(_, base) => 7 + base.len() as u64,
        Record::Scope(_, _, deadline, upward) => 10
            + deadline_size(*deadline)
            + upward_size(upward),
        Record::End(_, _, _, participant) => 18 + endpoint_size(participant),
        Record::Part(_, _, registration) => 10 + endpoint_size(registration),
        Record::Enrolled(_, coordinator) => 9 + endpoint_size(coordinator),
        Record::Ticked(_) | Record::Asked(_) => 9,
        Record::Refused(_, _)
        | Record::Received(_, _)
        | Record::Acted(_, _)
        | Record::Decided(_, _)
        | Record::Chosen(_, _) => 10,
    }
}

fn deadline_size(deadline: Option<u64>) -> u64
    ensures size { result ≡ length (option_coding (to_le_bytes w64) deadline) }
    ensures small { result ≤ 9 }
{
    match deadline {
        None => 1,
        Some(_) => 9,
    }
}

fn upward_size(upward: &Option<(Protocol, Epr)>) -> u64
    requires { IsUpward upward.now }
    ensures size { result ≡ length (option_coding upward_coding upward.now) }
    ensures small { result ≤ 5000 }
{
    match upward {
        None => 1,
        Some((_, registration)) => 2 + endpoint_size(registration),
    }
}

#[tactic(auto, using(crate::proofs::Parts::size_is))]
fn endpoint_size(epr: &Epr) -> u64
    requires { Fits epr.now }
    ensures size { result ≡ length (endpoint_coding epr.now) }
    ensures small { result ≤ MOST_ENDPOINT_BYTES }
{
    epr.size()
}
