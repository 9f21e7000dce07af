use crate::Blocks;
use std::alloc::{AllocError, Global};
use std::rt::HostRuntime;
use std::test::Fail;

/// What `x` and `y` mean in `int x; { int x, y;`, each declaration by its number.
fn open_block(scopes: &mut Blocks<u8>, alloc: Global) -> Result<bool, AllocError> {
    scopes.open()?;
    let is_new = scopes.lookup(b"x").is_none();
    scopes.declare(alloc, b"x", 1)?;
    scopes.open()?;
    let is_outer = scopes.lookup(b"x") == Some(1) && scopes.lookup_here(b"x").is_none();
    scopes.declare(alloc, b"x", 2)?;
    scopes.declare(alloc, b"y", 3)?;
    let are_inner = scopes.lookup(b"x") == Some(2) && scopes.lookup(b"y") == Some(3);
    scopes.declare(alloc, b"x", 4)?;
    Ok(is_new && is_outer && are_inner && scopes.lookup(b"x") == Some(4))
}

/// What they mean behind the block.
fn means_outer(scopes: &Blocks<u8>) -> bool {
    scopes.lookup(b"x") == Some(1) && scopes.lookup(b"y").is_none()
}

#[test]
fn blocks(rt: HostRuntime) -> Result<(), Fail> {
    let mut scopes: Blocks<u8> = Blocks::new(rt.alloc());
    assert!(&rt; open_block(&mut scopes, rt.alloc())?);
    scopes.close();
    assert!(&rt; means_outer(&scopes));
    Ok(())
}
