// A pool of texts: which numbers texts get, and that a number that is free is used again.
use site_base::Memory;
use std::alloc::Global;
use text_pool::Pool;

/// The numbers of `ab`, of `ab` again and of the empty text, and how many ids are held then.
fn three_ids(alloc: Global) -> Result<(usize, usize, usize, u128), Memory> {
    let mut pool = Pool::new(alloc);
    let first = pool.intern(alloc, b"ab")?;
    let second = pool.intern(alloc, b"ab")?;
    let third = pool.intern(alloc, b"")?;
    Ok((
        first.number(),
        second.number(),
        third.number(),
        pool.holds(),
    ))
}

#[test]
fn a_text_has_one_number(rt: HostRuntime) {
    assert!(rt; matches!(three_ids(rt.alloc()), Ok((0, 0, 1, 3))));
}

/// Whether each of so many texts gets the first number, where none is held while the next one comes.
fn use_one_number(alloc: Global, texts: u32) -> Result<bool, Memory> {
    let mut pool = Pool::new(alloc);
    for text in 0..texts {
        let id = pool.intern(alloc, &text.to_le_bytes())?;
        let number = id.number();
        pool.give_back(id);
        if number != 0 {
            return Ok(false);
        }
    }
    Ok(true)
}

#[test]
fn a_free_number_is_used_again(rt: HostRuntime) {
    assert!(rt; matches!(use_one_number(rt.alloc(), 10_000), Ok(true)));
}
