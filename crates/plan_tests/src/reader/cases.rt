/// A plan of one fragment, written with `'` for the quotation mark.
pub const WHOLE: &str = "{'version':1,'output':['x','y'],'tables':[\
    {'name':'t','columns':[{'name':'a','type':'bigint'},{'name':'b','type':'varchar'},\
    {'name':'c','type':'boolean'},{'name':'d','type':'decimal(12,2)'},\
    {'name':'e','type':'date'}]},\
    {'name':'u','columns':[{'name':'f','type':'date'}]}],'fragments':[\
    {'id':0,'placement':'SINGLE','root':\
    {'id':1,'op':'project','columns':[{'col':0},\
    {'call':'concat','args':[{'col':1},{'lit':'!','type':'varchar'}]}],'input':\
    {'id':2,'op':'filter','predicate':{'case':[\
    {'when':{'col':2},'then':{'call':'<','args':[{'col':3},\
    {'cast':{'lit':'7','type':'bigint'},'type':'decimal(12,2)'}]}}],\
    'else':{'null':'boolean'}},'input':\
    {'id':3,'op':'scan','table':'t','columns':['a','b','c','d','e']}}}}]}";

/// A line for each case: a text of the document, what is put in its place, and the code and the
/// path that are reported then, 0 where it is a plan. A line that begins with `#` is a heading.
pub const CASES: &str = "\
'version':1, | 'version':1 , | 0\n\
# Code 1: no JSON.\n\
'version':1, | 'version':01, | 1\n\
'version':1, | 'version':1e999, | 1\n\
'fragments':[ | 'fragments':, | 1\n\
# Code 2: keys, kinds and words.\n\
'version':1, | | 2\n\
'version':1, | 'version':1,'more':0, | 2\n\
'version':1, | 'version':2, | 2 /version\n\
'version':1, | 'version':-0, | 2 /version\n\
['x','y'] | 'x' | 2 /output\n\
['x','y'] | ['x',null] | 2 /output/1\n\
{'name':'u', | { | 2 /tables/1\n\
'name':'u' | 'name':1 | 2 /tables/1/name\n\
{'name':'f','type':'date'} | {'name':'f'} | 2 /tables/1/columns/0\n\
'name':'f' | 'name':[] | 2 /tables/1/columns/0/name\n\
'type':'date'}]}],'fr | 'type':7}]}],'fr | 2 /tables/1/columns/0/type\n\
'placement':'SINGLE', | | 2 /fragments/0\n\
'placement':'SINGLE', | 'placement':'SINGLE','output':{'kind':'SINGLE'}, | 2 /fragments/0\n\
'placement':'SINGLE' | 'placement':'ONE' | 2 /fragments/0/placement\n\
'id':0 | 'id':'0' | 2 /fragments/0/id\n\
'op':'project', | | 2 /fragments/0/root\n\
'op':'project' | 'op':'select' | 2 /fragments/0/root/op\n\
'id':1 | 'id':1.0 | 2 /fragments/0/root/id\n\
'predicate': | 'condition': | 2 /fragments/0/root/input\n\
{'col':0} | {'col':0,'type':'bigint'} | 2 /fragments/0/root/columns/0\n\
{'col':0} | {} | 2 /fragments/0/root/columns/0\n\
{'col':0} | {'col':null} | 2 /fragments/0/root/columns/0/col\n\
'lit':'!' | 'lit':33 | 2 /fragments/0/root/columns/1/args/1/lit\n\
'args':[{'col':1} | 'args':[1 | 2 /fragments/0/root/columns/1/args/0\n\
'when': | 'if': | 2 /fragments/0/root/input/predicate/case/0\n\
'else': | 'other': | 2 /fragments/0/root/input/predicate\n\
'table':'t' | 'table':{} | 2 /fragments/0/root/input/input/table\n\
['a','b','c','d','e'] | {} | 2 /fragments/0/root/input/input/columns\n\
# Code 3: limits.\n\
['x','y'] | [] | 3 /output\n\
['x','y'] | ['x',''] | 3 /output/1\n\
[{'name':'f','type':'date'}] | [] | 3 /tables/1/columns\n\
'name':'u' | 'name':'' | 3 /tables/1/name\n\
'id':3 | 'id':4294967295 | 0\n\
'id':3 | 'id':4294967296 | 3 /fragments/0/root/input/input/id\n\
'col':1 | 'col':2147483648 | 3 /fragments/0/root/columns/1/args/0/col\n\
'col':1 | 'col':2147483647 | 5 /fragments/0/root/columns/1/args/0\n\
['a','b','c','d','e'] | [] | 3 /fragments/0/root/input/input/columns\n\
# Code 4: names and ids.\n\
'name':'u' | 'name':'t' | 4 /tables/1/name\n\
'name':'b' | 'name':'a' | 4 /tables/0/columns/1/name\n\
'type':'boolean'},{ | 'type':'bool'},{ | 4 /tables/0/columns/2/type\n\
'table':'t' | 'table':'v' | 4 /fragments/0/root/input/input/table\n\
'table':'t' | 'table':'u' | 4 /fragments/0/root/input/input/columns/0\n\
'call':'concat' | 'call':'||' | 4 /fragments/0/root/columns/1/call\n\
'null':'boolean' | 'null':'Boolean' | 4 /fragments/0/root/input/predicate/else/null\n\
'id':3 | 'id':1 | 4 /fragments/0/root/input/input/id\n\
# Of two faults the lower code; a fragment at another place than its id says.\n\
'placement':'SINGLE','root':{'id':1, | 'placement':'SOURCE','root':{'id':1,'id':4294967296, | 3 /fragments/0/root/id\n\
'id':0, | 'id':1, | 6 /fragments/0/id\n\
# Code 5: types. Inputs come first, and a fault stands at what breaks a rule.\n\
['x','y'] | ['x'] | 5 /output\n\
['x','y'] | ['x','y','z'] | 5 /output\n\
{'col':0} | {'col':4} | 0\n\
{'col':0} | {'col':5} | 5 /fragments/0/root/columns/0\n\
{'col':1} | {'col':0} | 5 /fragments/0/root/columns/1\n\
'args':[{'col':1},{'lit':'!','type':'varchar'}] | 'args':[{'col':1}] | 5 /fragments/0/root/columns/1\n\
'args':[{'col':1},{'lit':'!','type':'varchar'}] | 'args':[] | 5 /fragments/0/root/columns/1\n\
'args':[{'col':1}, | 'args':[{'col':7}, | 5 /fragments/0/root/columns/1/args/0\n\
'call':'concat' | 'call':'and' | 5 /fragments/0/root/columns/1\n\
'lit':'!','type':'varchar' | 'lit':'1','type':'bigint' | 5 /fragments/0/root/columns/1\n\
'lit':'!','type':'varchar' | 'lit':'1.234','type':'decimal(4,2)' | 5 /fragments/0/root/columns/1/args/1/lit\n\
'lit':'7' | 'lit':'7x' | 5 /fragments/0/root/input/predicate/case/0/then/args/1/cast/lit\n\
'lit':'7' | 'lit':'9223372036854775807' | 0\n\
'lit':'7' | 'lit':'9223372036854775808' | 5 /fragments/0/root/input/predicate/case/0/then/args/1/cast/lit\n\
'lit':'7','type':'bigint' | 'lit':'2023-02-29','type':'date' | 5 /fragments/0/root/input/predicate/case/0/then/args/1/cast/lit\n\
'lit':'7','type':'bigint' | 'lit':'2024-02-29','type':'date' | 5 /fragments/0/root/input/predicate/case/0/then/args/1\n\
'decimal(12,2)'}] | 'decimal(12,3)'}] | 5 /fragments/0/root/input/predicate/case/0/then\n\
'when':{'col':2} | 'when':{'col':0} | 5 /fragments/0/root/input/predicate\n\
'when':{'col':2} | 'when':{'col':9} | 5 /fragments/0/root/input/predicate/case/0/when\n\
'null':'boolean' | 'null':'bigint' | 5 /fragments/0/root/input/predicate\n\
['a','b','c','d','e'] | ['e','b','c','d','a'] | 0\n\
['a','b','c','d','e'] | ['b','a','c','d','e'] | 5 /fragments/0/root/columns/1\n\
['a','b','c','d','e'] | ['b','a','d','c','e'] | 5 /fragments/0/root/input/predicate/case/0/then\n\
['a','b','c','d','e'] | ['a','b','c'] | 5 /fragments/0/root/input/predicate/case/0/then/args/0\n\
# Code 8: placement, after types.\n\
'placement':'SINGLE' | 'placement':'SOURCE' | 8 /fragments/0/placement\n\
'placement':'SINGLE' | 'placement':'HASH' | 8 /fragments/0/placement\n\
'output':['x','y'],'tables':[{'name':'t' | 'output':['x'],'tables':[{'name':'t' | 5 /output";

/// A document of one table with a root.
pub const SMALL: &str = "{'version':1,'output':['x'],'tables':[{'name':'t','columns':[\
    {'name':'a','type':'bigint'}]}],'fragments':[{'id':0,'placement':'SOURCE','root':ROOT}]}";

/// A root of that document, with `SCAN` for a scan, and what is reported then.
pub const ROOTS: &str = "\
SCAN | 8 /fragments/0/placement\n\
{'id':1,'op':'filter','predicate':{'col':0},'input':SCAN} | 5 /fragments/0/root/predicate\n\
{'id':1,'op':'filter','predicate':{'call':'is_null','args':[{'col':0}]},'input':SCAN} | 8 /fragments/0/placement\n\
{'id':1,'op':'values','types':['bigint'],'rows':[['1'],[null]]} | 8 /fragments/0/placement\n\
{'id':1,'op':'values','types':['bigint'],'rows':[['1'],['x']]} | 5 /fragments/0/root/rows/1/0\n\
{'id':1,'op':'sort','keys':[{'column':0,'order':'DESC'}],'input':SCAN} | 8 /fragments/0/placement\n\
{'id':1,'op':'sort','keys':[{'column':0,'order':'ASC'},{'column':9,'order':'ASC'}],'input':SCAN} | 5 /fragments/0/root/keys/1\n\
{'id':1,'op':'topn','step':'SINGLE','count':1,'keys':[{'column':1,'order':'ASC'}],'input':SCAN} | 5 /fragments/0/root/keys/0\n\
{'id':1,'op':'limit','step':'SINGLE','count':1,'input':SCAN} | 8 /fragments/0/placement\n\
{'id':1,'op':'topn','step':'PARTIAL','count':1,'keys':[{'column':9,'order':'ASC'}],'input':SCAN} | 7 /fragments/0/root/step\n\
{'id':1,'op':'aggregate','step':'SINGLE','keys':[9],'calls':[],'input':SCAN} | 5 /fragments/0/root/keys/0\n\
{'id':1,'op':'aggregate','step':'SINGLE','keys':[],'calls':[{'name':'sum','column':0}],'input':SCAN} | 8 /fragments/0/placement\n\
{'id':1,'op':'aggregate','step':'SINGLE','keys':[],'calls':[{'name':'avg','column':0}],'input':SCAN} | 5 /fragments/0/root/calls/0\n\
{'id':1,'op':'aggregate','step':'SINGLE','keys':[0],'calls':[{'name':'count_all'}],'input':SCAN} | 5 /output\n\
{'id':1,'op':'aggregate','step':'PARTIAL','keys':[9],'calls':[],'input':SCAN} | 7 /fragments/0/root/step\n\
{'id':1,'op':'project','columns':[{'col':1}],'input':{'id':2,'op':'join','kind':'LEFT','on':[[0,0]],'left':SCAN,'right':{'id':8,'op':'scan','table':'t','columns':['a']},'filters':[]}} | 8 /fragments/0/placement\n\
{'id':1,'op':'join','kind':'INNER','on':[[0,0]],'left':SCAN,'right':{'id':8,'op':'scan','table':'t','columns':['a']}} | 5 /output\n\
{'id':1,'op':'join','kind':'INNER','on':[[0,0],[0,1]],'left':SCAN,'right':{'id':8,'op':'scan','table':'t','columns':['a']}} | 5 /fragments/0/root/on/1\n\
{'id':1,'op':'join','kind':'INNER','on':[[0,1]],'left':SCAN,'right':{'id':8,'op':'scan','table':'t','columns':['a']},'filters':[{'id':0,'key':7,'scan':9,'column':0,'wait':true}]} | 5 /fragments/0/root/on/0\n\
{'id':1,'op':'project','columns':[{'col':0}],'input':{'id':2,'op':'join','kind':'LEFT','on':[[0,0]],'left':SCAN,'right':{'id':8,'op':'scan','table':'t','columns':['a']},'filters':[{'id':0,'key':7,'scan':9,'column':0,'wait':true}]}} | 8 /fragments/0/placement\n\
{'id':1,'op':'project','columns':[{'col':9}],'input':{'id':2,'op':'union','left':SCAN,'right':{'id':3,'op':'remote','fragment':0}}} | 6 /fragments/0/root/input/right/fragment\n\
{'id':1,'op':'union','left':SCAN,'right':{'id':3,'op':'values','types':['date'],'rows':[]}} | 5 /fragments/0/root\n\
{'id':1,'op':'union','left':SCAN,'right':{'id':3,'op':'scan','table':'t','columns':['a']}} | 8 /fragments/0/placement";

pub const SCAN: &str = "{'id':9,'op':'scan','table':'t','columns':['a']}";

/// A pricing summary.
pub const P1: &str = "{'version':1,'output':['flag','qty','revenue','avg_price'],'tables':[\n\
{'name':'items','columns':[{'name':'day','type':'date'},{'name':'flag','type':'varchar'},{'name':'qty','type':'bigint'},{'name':'price','type':'decimal(12,2)'},{'name':'disc','type':'decimal(4,2)'}]}],\n\
'fragments':[\n\
{'id':0,'placement':'SINGLE','root':{'id':1,'op':'sort','keys':[{'column':0,'order':'ASC'}],'input':{'id':2,'op':'aggregate','step':'FINAL','input':{'id':3,'op':'remote','fragment':1}}}},\n\
{'id':1,'placement':'SOURCE','output':{'kind':'SINGLE'},'root':{'id':4,'op':'aggregate','step':'PARTIAL','keys':[0],'calls':[{'name':'sum','column':1},{'name':'sum','column':2},{'name':'avg','column':3}],'input':{'id':5,'op':'project','columns':[{'col':1},{'col':2},{'call':'*','args':[{'col':3},{'call':'-','args':[{'lit':'1','type':'decimal(1,0)'},{'col':4}]}]},{'col':3}],'input':{'id':6,'op':'filter','predicate':{'call':'<=','args':[{'col':0},{'lit':'1998-09-02','type':'date'}]},'input':{'id':7,'op':'scan','table':'items','columns':['day','flag','qty','price','disc']}}}}}]}";

/// Grouping over a hash exchange.
pub const P2: &str = "{'version':1,'output':['g','n','s'],'tables':[\n\
{'name':'t','columns':[{'name':'g','type':'varchar'},{'name':'v','type':'bigint'}]}],\n\
'fragments':[\n\
{'id':0,'placement':'SINGLE','root':{'id':1,'op':'remote','fragment':1}},\n\
{'id':1,'placement':'HASH','output':{'kind':'SINGLE'},'root':{'id':2,'op':'aggregate','step':'FINAL','input':{'id':3,'op':'remote','fragment':2}}},\n\
{'id':2,'placement':'SOURCE','output':{'kind':'HASH','columns':[0]},'root':{'id':4,'op':'aggregate','step':'PARTIAL','keys':[0],'calls':[{'name':'count_all'},{'name':'sum','column':1}],'input':{'id':5,'op':'scan','table':'t','columns':['g','v']}}}]}";

/// A global sum.
pub const P3: &str =
    "{'version':1,'output':['s'],'tables':[{'name':'t','columns':[{'name':'a','type':'bigint'}]}],\n\
'fragments':[\n\
{'id':0,'placement':'SINGLE','root':{'id':1,'op':'aggregate','step':'FINAL','input':{'id':2,'op':'remote','fragment':1}}},\n\
{'id':1,'placement':'SOURCE','output':{'kind':'SINGLE'},'root':{'id':3,'op':'aggregate','step':'PARTIAL','keys':[],'calls':[{'name':'sum','column':0}],'input':{'id':4,'op':'scan','table':'t','columns':['a']}}}]}";

/// A plan of three fragments: parts of groups, whole groups by their keys, and the sorted result.
pub const GROUPED: &str = "{'version':1,'output':['k','s'],'tables':[{'name':'t','columns':[\
    {'name':'a','type':'bigint'},{'name':'b','type':'varchar'}]}],'fragments':[\
    {'id':0,'placement':'SINGLE','root':\
    {'id':1,'op':'sort','keys':[{'column':0,'order':'ASC'}],'input':{'id':2,'op':'remote','fragment':1}}},\
    {'id':1,'placement':'HASH','output':{'kind':'SINGLE'},'root':\
    {'id':3,'op':'aggregate','step':'FINAL','input':{'id':4,'op':'remote','fragment':2}}},\
    {'id':2,'placement':'SOURCE','output':{'kind':'HASH','columns':[0]},'root':\
    {'id':5,'op':'aggregate','step':'PARTIAL','keys':[1],'calls':[{'name':'sum','column':0}],\
    'input':{'id':6,'op':'scan','table':'t','columns':['a','b']}}}]}";

/// A text of that document, what is put in its place, and the code and the path that are reported, 0 where it is a plan.
pub const SEVERAL: &str = "\
'version':1, | 'version':1 , | 0\n\
'placement':'SOURCE' | 'placement':'SINGLE' | 0\n\
# The codes of values come first.\n\
'version':1, | 'version':01, | 1\n\
'step':'FINAL' | 'step':'LAST' | 2 /fragments/1/root/step\n\
'fragment':2 | 'fragment':2147483648 | 3 /fragments/1/root/input/fragment\n\
'id':6 | 'id':1 | 4 /fragments/2/root/input/id\n\
'table':'t' | 'table':'u' | 4 /fragments/2/root/input/table\n\
# Code 6: sources and fragments, before halves.\n\
{'id':2,'placement' | {'id':3,'placement' | 6 /fragments/2/id\n\
'fragment':2 | 'fragment':1 | 6 /fragments/1/root/input/fragment\n\
'fragment':2 | 'fragment':0 | 6 /fragments/1/root/input/fragment\n\
'fragment':2 | 'fragment':3 | 6 /fragments/1/root/input/fragment\n\
'fragment':1 | 'fragment':2 | 6 /fragments/1/root/input/fragment\n\
'fragment':1 | 'fragment':3 | 6 /fragments/0/root/input/fragment\n\
{'id':2,'op':'remote','fragment':1} | {'id':2,'op':'union','left':{'id':7,'op':'remote','fragment':2},'right':{'id':8,'op':'remote','fragment':1}} \
| 6 /fragments/1/root/input/fragment\n\
{'id':4,'op':'remote','fragment':2} | {'id':4,'op':'scan','table':'t','columns':['a']} | 6 /fragments/2\n\
# A fragment that is not read, after all ids and sources.\n\
{'id':2,'op':'remote','fragment':1}}},{'id':1, | {'id':2,'op':'scan','table':'t','columns':['a']}}},{'id':4, | 6 /fragments/1/id\n\
# Code 7: halves, before types.\n\
'op':'aggregate','step':'FINAL', | 'op':'topn','step':'FINAL', | 7 /fragments/1/root/step\n\
'step':'PARTIAL','keys':[1] | 'step':'SINGLE','keys':[7] | 7 /fragments/1/root/step\n\
'op':'aggregate','step':'FINAL', | 'op':'filter','predicate':{'null':'date'}, | 7 /fragments/2/root/step\n\
'op':'sort','keys':[{'column':0,'order':'ASC'}], | 'op':'limit','step':'PARTIAL','count':1, | 7 /fragments/0/root/step\n\
'op':'sort','keys':[{'column':0,'order':'ASC'}], | 'op':'limit','step':'FINAL', | 7 /fragments/0/root/step\n\
# Code 5: types, before placement; the last fragment first.\n\
[1] | [7] | 5 /fragments/2/root/keys/0\n\
'columns':[0] | 'columns':[3] | 5 /fragments/2/output/columns/0\n\
{'kind':'SINGLE'} | {'kind':'HASH','columns':[2]} | 5 /fragments/1/output/columns/0\n\
['k','s'] | ['k'] | 5 /output\n\
# Code 8: placement.\n\
'placement':'SINGLE' | 'placement':'HASH' | 8 /fragments/0/placement\n\
{'kind':'SINGLE'} | {'kind':'HASH','columns':[1]} | 8 /fragments/0/root/input\n\
{'kind':'SINGLE'} | {'kind':'BROADCAST'} | 8 /fragments/0/root/input\n\
'placement':'HASH' | 'placement':'SOURCE' | 8 /fragments/1/root/input\n\
{'kind':'HASH','columns':[0]} | {'kind':'BROADCAST'} | 8 /fragments/1/root\n\
'columns':[0] | 'columns':[1] | 8 /fragments/1/root";
