//! The plan of a case.

use std::alloc::Global;
use std::test::Fail;

const PLAN: &str = "{'version':1,'output':[NAMES],'tables':[TABLES],\
    'fragments':[{'id':0,'placement':'SINGLE','root':ROOT}]}";

/// The tables by their short names, then their scans.
const SHORT: &str = "\
$a {'name':'t','columns':[{'name':'a','type':'bigint'}]}
$c {'name':'t','columns':[{'name':'a','type':'bigint'},{'name':'c','type':'varchar'}]}
$d {'name':'t','columns':[{'name':'a','type':'decimal(2,1)'}]}
$e {'name':'t','columns':[{'name':'a','type':'decimal(38,0)'}]}
$g {'name':'t','columns':[{'name':'g','type':'varchar'},{'name':'v','type':'bigint'},{'name':'d','type':'decimal(3,1)'}]}
$p {'name':'t','columns':[{'name':'g','type':'varchar'},{'name':'v','type':'bigint'}]}
$i {'name':'t','columns':[{'name':'day','type':'date'},{'name':'flag','type':'varchar'},{'name':'qty','type':'bigint'},{'name':'price','type':'decimal(12,2)'},{'name':'disc','type':'decimal(4,2)'}]}
$k {'name':'t','columns':[{'name':'k','type':'bigint'},{'name':'x','type':'varchar'}]},{'name':'u','columns':[{'name':'k','type':'bigint'},{'name':'y','type':'varchar'}]}
@a {'id':9,'op':'scan','table':'t','columns':['a']}
@c {'id':9,'op':'scan','table':'t','columns':['a','c']}
@g {'id':9,'op':'scan','table':'t','columns':['g','v','d']}
@p {'id':9,'op':'scan','table':'t','columns':['g','v']}
@i {'id':9,'op':'scan','table':'t','columns':['day','flag','qty','price','disc']}
@t {'id':9,'op':'scan','table':'t','columns':['k','x']}
@u {'id':8,'op':'scan','table':'u','columns':['k','y']}
@v {'id':7,'op':'scan','table':'t','columns':['k','x']}
' \"";

/// The plan of one fragment over these tables, or the root alone where there are none.
pub(crate) fn plan_of(
    alloc: Global,
    tables: &str,
    names: &str,
    root: &str,
) -> Result<String, Fail> {
    let mut plan = String::from_str(alloc, if tables.is_empty() { root } else { PLAN })?;
    for (from, to) in [("ROOT", root), ("NAMES", names), ("TABLES", tables)] {
        put(alloc, &mut plan, from, to)?;
    }
    for line in SHORT.lines() {
        let (from, to) = line.split_once(' ').unwrap_or((line, ""));
        put(alloc, &mut plan, from, to)?;
    }
    Ok(plan)
}

/// Puts one text in place of another.
fn put(alloc: Global, text: &mut String, from: &str, to: &str) -> Result<(), Fail> {
    *text = text.as_str().replace(alloc, from, to)?;
    Ok(())
}
