// A dictionary that is lent is one.
use crate::Dictionary;
use crate::key::Key;
use crate::refusals::{Absent, Full};

impl<'s, K: Key, D: Dictionary<K>> Dictionary<K> for &'s mut D {
    ghost meaning = { λ d. D.Dictionary.meaning d.now };

    ghost different = { λ d. D.Dictionary.different d.now };

    ghost within = { λ d. D.Dictionary.within d.now };

    ghost small = { λ d. D.Dictionary.small d.now };

    ghost counted = { λ d. D.Dictionary.counted d.now };

    fn size(&self) -> u32 {
        (**self).size()
    }

    fn capacity(&self) -> u32 {
        (**self).capacity()
    }

    fn asks(&self) -> u64 {
        (**self).asks()
    }

    fn find(&mut self, k: &K) -> Option<u32> {
        (**self).find(k)
    }

    fn name(&mut self, k: &K) -> Result<u32, Full> {
        (**self).name(k)
    }

    fn key(&mut self, n: u32) -> Result<K, Absent> {
        (**self).key(n)
    }
}
