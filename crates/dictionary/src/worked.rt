// A run that is worked out.
ghost use Rattle.std.specs.Prelude.{◌≡◌, length};
ghost use Rattle.dictionary.specs.Meaning.{new};
ghost use Rattle.dictionary.specs.Worked.{worked};

use crate::Dictionary;
use crate::calls::{Answer, Call};
use crate::history::replay;

/// Carries out fourteen calls, which are worked out for a new dictionary over two rows.
pub fn worked_run<D: Dictionary<u8>>(dictionary: &mut D, answers: &mut [Answer<u8>])
    ensures { D.Dictionary.meaning dictionary.old ≡ new 2 → length answers.old ≡ 14 → answers.new ≡ worked }
{
    let calls = [
        Call::Size,
        Call::Capacity,
        Call::Find(b'A'),
        Call::Name(b'A'),
        Call::Name(b'B'),
        Call::Name(b'A'),
        Call::Name(b'C'),
        Call::Find(b'B'),
        Call::Find(b'C'),
        Call::Key(0),
        Call::Key(2),
        Call::Key(3),
        Call::Size,
        Call::Asks,
    ];
    replay(dictionary, &calls, answers);
}
