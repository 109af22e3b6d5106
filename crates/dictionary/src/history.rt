// Dictionary calls as values, and lists of them carried out.
ghost use Rattle.std.specs.Prelude.{◌≡◌};
ghost use Rattle.dictionary.specs.Does.{Does};
ghost use Rattle.dictionary.specs.Histories.{Alike, Keeps, Runs, calling};

use crate::Dictionary;
use crate::calls::{Answer, Call};
use crate::key::Key;

// A `match` and no closure: calls are values, so that lists of them can be spoken of.
/// Carries out one call.
pub fn carry_out<K: Key, D: Dictionary<K>>(dictionary: &mut D, call: &Call<K>) -> Answer<K>
    ensures { Does D.Dictionary.meaning dictionary.old dictionary.new result (calling K.Key.order call.now) }
{
    match call {
        Call::Size => Answer::Size(dictionary.size()),
        Call::Capacity => Answer::Capacity(dictionary.capacity()),
        Call::Asks => Answer::Asks(dictionary.asks()),
        Call::Find(k) => Answer::Find(dictionary.find(k)),
        Call::Name(k) => Answer::Name(dictionary.name(k)),
        Call::Key(n) => Answer::Key(dictionary.key(*n)),
    }
}

// By the place and no `zip`: of what is written through a zipped `iter_mut` nothing is known after the loop. Calls and the room for their answers are the
// caller's memory, the one read and the other written, so they are two slices.
/// Carries out a list of calls, as many as there is room for answers.
pub fn replay<K: Key, D: Dictionary<K>>(
    dictionary: &mut D,
    calls: &[Call<K>],
    answers: &mut [Answer<K>],
)
    ensures runs { Runs K.Key.order D.Dictionary.meaning dictionary.old dictionary.new calls.now answers.old answers.new }
    ensures keeps { Keeps (D.Dictionary.meaning dictionary.old) (D.Dictionary.meaning dictionary.new) }
{
    for (i, answer) in answers.iter_mut().enumerate() {
        let Some(call) = calls.get(i) else {
            break;
        };
        *answer = carry_out(dictionary, call);
    }
}

// The rooms for the answers are the caller's memory too, one for each dictionary.
/// Carries out a list of calls on two dictionaries, of whatever makes. If they mean the same, they answer alike.
pub fn side_by_side<K: Key, D: Dictionary<K>, E: Dictionary<K>>(
    left: &mut D,
    right: &mut E,
    calls: &[Call<K>],
    left_answers: &mut [Answer<K>],
    right_answers: &mut [Answer<K>],
)
    ensures left { Runs K.Key.order D.Dictionary.meaning left.old left.new calls.now left_answers.old left_answers.new }
    ensures right { Runs K.Key.order E.Dictionary.meaning right.old right.new calls.now right_answers.old right_answers.new }
    ensures alike { D.Dictionary.meaning left.old ≡ E.Dictionary.meaning right.old → left_answers.old ≡ right_answers.old → Alike left_answers.new right_answers.new (D.Dictionary.meaning left.new) (E.Dictionary.meaning right.new) }
{
    replay(left, calls, left_answers);
    replay(right, calls, right_answers);
}
