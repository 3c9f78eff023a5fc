// The state that is asked about: the one that a file holds, or the start state.
ghost use Rattle.reasons.specs.Why.{is_given, bytes_of, state_in, state_for};
ghost use Rattle.reasons.specs.Inner.Pieces.{Takes};

use crate::STATE;
use answers::Refusal;
use plan::Plan;
use state::Words;

// Takes the state into words. A file that is not as long as one is refused: no state can stand in it.
pub(crate) fn take(plan: &Plan, given: Option<&[u8]>, state: &mut Words) -> Result<(), Refusal>
    ensures { Takes (state_for plan.now (is_given given.entry) (bytes_of given.entry)) result state.new }
{
    match given {
        Some(bytes) => take_file(bytes, state),
        None => {
            state::begin(&plan.peers, state);
            Ok(())
        }
    }
}

// Takes it from the bytes of its file. The loop goes over the words and the file's bytes at once, by place:
// two iterators side by side would be no plainer.
fn take_file(bytes: &[u8], state: &mut Words) -> Result<(), Refusal>
    ensures { Takes (state_in bytes.now) result state.new }
{
    if bytes.len() != STATE {
        return Err(Refusal::Unsound);
    }
    let (words, _) = bytes.as_chunks::<4>();
    for i in 0..state::WORDS {
        state[i] = u32::from_le_bytes(words[i]);
    }
    Ok(())
}
