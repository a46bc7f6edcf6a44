use plan_docs::{Fragment, Node, NodeOperator, NodeStep, Output, Placement, Plan, read_plan_doc};
use serde_json::Value;
use std::alloc::Global;
use std::test::Fail;

const DOCUMENT: &str = "{\"version\":1,\"output\":[\"x\"],\"tables\":[{\"name\":\"t\",\"columns\":[\
    {\"name\":\"a\",\"type\":\"date\"},{\"name\":\"b\",\"type\":\"bigint\"}]}],\"fragments\":[\
    {\"id\":0,\"placement\":\"SINGLE\",\"root\":{\"id\":1,\"op\":\"limit\",\"step\":\"FINAL\",\
    \"input\":{\"id\":2,\"op\":\"remote\",\"fragment\":1}}},\
    {\"id\":1,\"placement\":\"SOURCE\",\"output\":{\"kind\":\"HASH\",\"columns\":[1]},\"root\":\
    {\"id\":3,\"op\":\"limit\",\"step\":\"PARTIAL\",\"count\":9,\"input\":\
    {\"id\":4,\"op\":\"scan\",\"table\":\"t\",\"columns\":[\"b\",\"a\"]}}}]}";

fn read(alloc: Global, text: &str) -> Result<Plan, Fail> {
    let document = Value::from_str(alloc, text)?;
    Ok(read_plan_doc(alloc, &document)?)
}

fn is_first(fragment: &Fragment) -> bool {
    matches!(fragment.placement, Placement::Single)
        && matches!(fragment.output, Output::Result)
        && is_final_limit(&fragment.root)
}

fn is_second(fragment: &Fragment) -> bool {
    matches!(fragment.placement, Placement::Source)
        && is_hash_of_one(&fragment.output)
        && is_partial_limit(&fragment.root)
}

fn is_final_limit(root: &Node) -> bool {
    matches!(
        root,
        Node::Step {
            id: 1,
            operator: NodeOperator::LimitFinal,
            ..
        }
    )
}

fn is_hash_of_one(output: &Output) -> bool {
    matches!(output, Output::Hash(columns) if columns.len() == 1)
}

fn is_partial_limit(root: &Node) -> bool {
    matches!(
        root,
        Node::Step {
            id: 3,
            operator: NodeOperator::Limit {
                half: NodeStep::Partial,
                count: 9,
            },
            ..
        }
    )
}

/// Whether the plan is that of the document.
fn is_read(plan: &Plan) -> bool {
    match plan.fragments.as_slice() {
        [first, second] => {
            plan.output.len() == 1 && plan.tables.len() == 1 && is_first(first) && is_second(second)
        }
        _ => false,
    }
}

#[test]
fn reads_a_plan(rt: HostRuntime) -> Result<(), Fail> {
    let plan = read(rt.alloc(), DOCUMENT)?;
    assert!(rt; is_read(&plan));
    Ok(())
}
