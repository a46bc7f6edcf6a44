ghost use Rattle.std.specs.Prelude.{◌≤◌};
ghost use Rattle.serde_json.specs.Data.{depth};
ghost use Rattle.serde_json.specs.View.{view};

use json_paths::pointer_of;
use plan_grammar::{Place, places_of};
use serde_json::Value;
use std::alloc::Global;
use std::test::Fail;

const DOCUMENT: &str = "{\"fragments\":[{\"root\":{\"input\":null,\"op\":\"filter\",\"id\":2,\
    \"predicate\":{\"type\":\"x\",\"lit\":\"y\"}},\"id\":0}],\"output\":[7],\"version\":1}";

/// The path of each place, one a line: the first is that of the document.
const PATHS: &str = "\n\
/version\n\
/output\n\
/output/0\n\
/fragments\n\
/fragments/0\n\
/fragments/0/id\n\
/fragments/0/root\n\
/fragments/0/root/id\n\
/fragments/0/root/op\n\
/fragments/0/root/predicate\n\
/fragments/0/root/predicate/lit\n\
/fragments/0/root/predicate/type\n\
/fragments/0/root/input\n";

/// The paths, a line for each.
fn paths_of(alloc: Global, places: &[Place<'_>]) -> Result<String, Fail> {
    let mut paths = String::new(alloc);
    for place in places {
        push_path(alloc, &mut paths, place)?;
    }
    Ok(paths)
}

fn push_path(alloc: Global, paths: &mut String, place: &Place<'_>) -> Result<(), Fail> {
    let path = pointer_of(alloc, place.path.as_slice())?;
    paths.push_str(path.as_str())?;
    paths.push_str("\n")?;
    Ok(())
}

fn are_paths(alloc: Global, document: &Value, want: &str) -> Result<bool, Fail>
    requires { depth (view document.now) ≤ 127 }
{
    let places = places_of(alloc, document)?;
    Ok(paths_of(alloc, places.as_slice())?.as_str() == want)
}

#[test]
fn lists_places(rt: HostRuntime) -> Result<(), Fail> {
    let document = Value::from_str(rt.alloc(), DOCUMENT)?;
    assert!(rt; are_paths(rt.alloc(), &document, PATHS)?);
    Ok(())
}
