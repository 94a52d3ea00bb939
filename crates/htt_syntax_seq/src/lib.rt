//! A list as the trees of the language keep it, and the two steps by which a tree is put together
//! from parts whose making can fail.
#![tactic(auto)]

mod parts;
mod seq;

pub use parts::{both, boxed};
pub use seq::Seq;

#[cfg(test)]
mod tests {
    use super::*;
    use std::test::Fail;

    #[test]
    fn makes_parts_and_keeps_items(rt: HostRuntime) -> Result<(), Fail> {
        let seq = Seq::of(Vec::from_slice(rt.alloc(), &[3u64, 1, 2])?);
        assert_eq!(rt; seq.as_slice(), [3, 1, 2].as_slice());
        assert_eq!(rt; seq.into_vec().len(), 3);
        let (left, right) = both(boxed(rt.alloc(), Ok(7u64)), Ok(true))?;
        assert_eq!(rt; *left.get(), 7);
        assert!(rt; right);
        Ok(())
    }
}
