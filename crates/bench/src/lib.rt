// The bench: what hosts and links may do between the rounds of a network, one round, and rounds until
// nothing waits. Areas are the caller's; a refusal changes none of them. Settling's 12, that something waits
// still, has a name among refusals and is none.
#![tactic(auto)]

mod rounds;
mod settling;
mod trial;

pub use calls::{acknowledge, link, request, reset, tick};
pub use rounds::round;
pub use settling::settle;
pub use state::{WORDS, is_sound, start};
pub use trial::trials;

// A word for each of 256 ports: the byte that it sent, or nothing, as C is lent them.
pub const SENT: usize = 256;

pub const NOTHING: u32 = 256;

// No round tells more words.
pub const TOLD: usize = 1088;

// The most rounds that may be allowed.
pub const ROUNDS: u32 = 4096;

// Three words for each of 1,024 places.
pub const FOUND: usize = 3072;
