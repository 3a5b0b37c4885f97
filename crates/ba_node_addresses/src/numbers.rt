//! The numbers of messages.
ghost use Rattle.std.specs.Prelude.{◌≡◌, ◌<◌, ◌^◌};
ghost use Rattle.ba_node_steps.specs.Addresses.{message_number};

use ba_core::Id;

/// The code of Register; notices have the codes below it.
pub const CODE_OF_REGISTER: u8 = 17;

/// The number of the message with this code that this object sends: the code stands above the object's identifier, which has
/// 96 bits.
pub fn number_of_message(code: u8, sender: Id) -> Id
    requires { sender.0 < 2 ^ 96 }
    ensures { result ≡ message_number code sender }
{
    Id(u128::from(code) * 79_228_162_514_264_337_593_543_950_336 + sender.0)
}
