ghost use Rattle.std.specs.Prelude.{◌≡◌, IfOk};
ghost use Rattle.demo_documents.specs.Plans.{plan_text};

use sql_values::{Memory, Text};
use std::alloc::Global;

/// The plan of the demo, one JSON document without line feeds.
const PLAN: &str = "\
{\"version\":1,\"output\":[\"region\",\"orders\",\"amount\"],\"tables\":[\
{\"name\":\"orders\",\"columns\":[{\"name\":\"customer\",\"type\":\"bigint\"},\
{\"name\":\"amount\",\"type\":\"decimal(12,2)\"}]},\
{\"name\":\"customers\",\"columns\":[{\"name\":\"id\",\"type\":\"bigint\"},\
{\"name\":\"region\",\"type\":\"varchar\"}]}],\
\"fragments\":[\
{\"id\":0,\"placement\":\"SINGLE\",\"root\":{\"id\":1,\"op\":\"sort\",\"keys\":[{\"column\":0,\
\"order\":\"ASC\"}],\"input\":{\"id\":2,\"op\":\"aggregate\",\"step\":\"FINAL\",\
\"input\":{\"id\":3,\"op\":\"remote\",\"fragment\":1}}}},\
{\"id\":1,\"placement\":\"HASH\",\"output\":{\"kind\":\"SINGLE\"},\"root\":{\"id\":4,\
\"op\":\"aggregate\",\"step\":\"PARTIAL\",\"keys\":[3],\"calls\":[{\"name\":\"count_all\"},\
{\"name\":\"sum\",\"column\":1}],\"input\":{\"id\":5,\"op\":\"join\",\"kind\":\"INNER\",\
\"on\":[[0,0]],\"left\":{\"id\":6,\"op\":\"remote\",\"fragment\":2},\"right\":{\"id\":7,\
\"op\":\"remote\",\"fragment\":3},\"filters\":[{\"id\":1,\"key\":0,\"scan\":8,\"column\":0,\
\"wait\":false}]}}},\
{\"id\":2,\"placement\":\"SOURCE\",\"output\":{\"kind\":\"HASH\",\"columns\":[0]},\
\"root\":{\"id\":8,\"op\":\"scan\",\"table\":\"orders\",\"columns\":[\"customer\",\"amount\"]}},\
{\"id\":3,\"placement\":\"SOURCE\",\"output\":{\"kind\":\"HASH\",\"columns\":[0]},\
\"root\":{\"id\":9,\"op\":\"scan\",\"table\":\"customers\",\"columns\":[\"id\",\"region\"]}}]}";

/// The plan of every demo.
pub(crate) fn plan(alloc: Global) -> Result<Text, Memory>
    ensures { IfOk result (λ text. text ≡ plan_text) }
{
    Text::copy_of(alloc, PLAN)
}
