use json_paths::{Key, Step, pointer_of, then};
use std::alloc::Global;
use std::test::Fail;

/// The pointer of a path of three steps, each put after those before it.
fn is_pointer(alloc: Global, want: &str) -> Result<bool, Fail> {
    let path = then(alloc, &[Step::Key(Key::Fragments)], Step::Index(12))?;
    let path = then(alloc, &path, Step::Key(Key::Root))?;
    is_pointer_of(alloc, &path, want)
}

fn is_pointer_of(alloc: Global, path: &[Step], want: &str) -> Result<bool, Fail> {
    let text = pointer_of(alloc, path)?;
    Ok(text.as_str() == want)
}

#[test]
fn prints_paths(rt: HostRuntime) -> Result<(), Fail> {
    assert!(rt; is_pointer_of(rt.alloc(), &[], "")?);
    assert!(rt; is_pointer(rt.alloc(), "/fragments/12/root")?);
    Ok(())
}
