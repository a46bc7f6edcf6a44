ghost use Rattle.std.specs.Prelude.{◌≡◌, map, IfOk};
ghost use Rattle.serde_json.specs.View.{view};
ghost use Rattle.json_paths.specs.declared.key.Key.TheVariants as key;
ghost use Rattle.plan_grammar.specs.Json.{under};
ghost use Rattle.plan_docs.specs.Documents.{fragment_of, output_in, plan_of};
ghost use Rattle.plan_docs.specs.Nodes.{node_view};
ghost use Rattle.plan_docs.specs.Plans.{fragment_view, plan_view};
ghost use Rattle.plan_docs.specs.ReadNodes.{inner_under, node_form};

use crate::leaves::nothing;
use crate::node::Node;
use crate::parts::{names_of, numbers_of};
use crate::plan::{Fragment, Fragments, Output, Plan};
use crate::read_nodes::read_node;
use crate::tables::read_tables;
use crate::words::placement_named;
use json_paths::Key;
use plan_grammar::{OutputWord, entries_under, output_of, text_under};
use serde_json::Value;
use sql_values::Memory;
use std::alloc::Global;

/// The plan that a document means.
#[tactic(auto, unfolding(crate::specs::Documents::plan_of))]
pub fn read_plan_doc(alloc: Global, document: &Value) -> Result<Plan, Memory>
    ensures { IfOk result (λ p. plan_view p ≡ plan_of (view document.now)) }
{
    Ok(Plan {
        output: names_of(alloc, entries_under(document, Key::Output))?,
        tables: read_tables(alloc, entries_under(document, Key::Tables))?,
        fragments: read_fragments(alloc, document, entries_under(document, Key::Fragments))?,
    })
}

fn read_fragments(alloc: Global, document: &Value, entries: &[Value]) -> Result<Fragments, Memory>
    ensures { IfOk result (λ fs. map fragment_view fs
        ≡ map (fragment_of (view document.now)) (map view entries.now)) }
{
    let mut fragments = Fragments::new(alloc);
    for entry in entries {
        fragments.push(read_fragment(alloc, document, entry)?)?;
    }
    Ok(fragments)
}

fn read_fragment(alloc: Global, document: &Value, fragment: &Value) -> Result<Fragment, Memory>
    ensures { IfOk result (λ f. fragment_view f
        ≡ fragment_of (view document.now) (view fragment.now)) }
{
    Ok(Fragment {
        placement: placement_named(text_under(fragment, Key::Placement)),
        output: read_output(alloc, fragment)?,
        root: read_root(alloc, document, fragment)?,
    })
}

fn read_root(alloc: Global, document: &Value, fragment: &Value) -> Result<Node, Memory>
    ensures { IfOk result (λ n. node_view n
        ≡ inner_under (node_form (view document.now)) key.Root (view fragment.now)) }
{
    match fragment.get(Key::Root.text()) {
        Some(root) => read_node(alloc, document, root),
        None => Ok(nothing(alloc)),
    }
}

fn read_output(alloc: Global, fragment: &Value) -> Result<Output, Memory>
    ensures { IfOk result (λ o. o ≡ output_in (under key.Output (view fragment.now))) }
{
    match fragment.get(Key::Output.text()) {
        Some(output) => match output_of(output) {
            OutputWord::Broadcast => Ok(Output::Broadcast),
            OutputWord::Hash => Ok(Output::Hash(numbers_of(
                alloc,
                entries_under(output, Key::Columns),
            )?)),
            _ => Ok(Output::Single),
        },
        None => Ok(Output::Result),
    }
}
