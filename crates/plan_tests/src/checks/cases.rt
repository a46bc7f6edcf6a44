/// A document with every object of the grammar, written with `'` for the quotation mark. No check of its places fails.
pub const WHOLE: &str = "{'version':1,'output':['x','y'],'tables':[\
    {'name':'t','columns':[{'name':'a','type':'bigint'},{'name':'b','type':'varchar'}]},\
    {'name':'u','columns':[{'name':'a','type':'date'}]}],\
    'fragments':[\
    {'id':0,'placement':'SINGLE','root':\
    {'id':1,'op':'topn','step':'FINAL','input':{'id':2,'op':'remote','fragment':1}}},\
    {'id':1,'placement':'HASH','output':{'kind':'SINGLE'},'root':\
    {'id':3,'op':'topn','step':'PARTIAL','count':7,'keys':[{'column':1,'order':'ASC'}],'input':\
    {'id':4,'op':'join','kind':'INNER','on':[[2,3]],\
    'left':{'id':5,'op':'remote','fragment':2},\
    'right':{'id':6,'op':'remote','fragment':3},\
    'filters':[{'id':0,'key':4,'scan':10,'column':5,'wait':false}]}}},\
    {'id':2,'placement':'SOURCE','output':{'kind':'HASH','columns':[6]},'root':\
    {'id':7,'op':'aggregate','step':'SINGLE','keys':[8],\
    'calls':[{'name':'count_all'},{'name':'sum','column':9}],'input':\
    {'id':8,'op':'filter','predicate':{'case':[\
    {'when':{'null':'boolean'},'then':{'call':'not','args':[{'col':10}]}}],\
    'else':{'cast':{'lit':'true','type':'varchar'},'type':'boolean'}},'input':\
    {'id':9,'op':'project','columns':[{'col':11}],'input':\
    {'id':10,'op':'scan','table':'t','columns':['a','b']}}}}},\
    {'id':3,'placement':'SOURCE','output':{'kind':'BROADCAST'},'root':\
    {'id':11,'op':'union','left':\
    {'id':12,'op':'values','types':['bigint','date'],'rows':[['1',null],[null,'x']]},'right':\
    {'id':13,'op':'limit','step':'SINGLE','count':12,'input':\
    {'id':14,'op':'sort','keys':[{'column':13,'order':'DESC'}],'input':\
    {'id':15,'op':'scan','table':'u','columns':['a']}}}}}]}";

/// A line for each case: a text of the document, what is put in its place, and the code and the
/// path that are reported then. A line that begins with `#` is a heading.
pub const CASES: &str = "\
'version':1, | 'version':1 , | 0\n\
'version':1, | 'version':01, | 1\n\
'version':1, | 'version':1e999, | 1\n\
# The document, its tables and columns.\n\
'version':1, | | 2\n\
'version':1, | 'version':1,'note':0, | 2\n\
'output':['x','y'], | | 2\n\
'version':1, | 'version':2, | 2 /version\n\
'version':1, | 'version':1.0, | 2 /version\n\
'version':1, | 'version':'1', | 2 /version\n\
'version':1, | 'version':null, | 2 /version\n\
['x','y'] | {} | 2 /output\n\
'x','y' | 7,'y' | 2 /output/0\n\
{'name':'u','columns':[{'name':'a','type':'date'}]} | [] | 2 /tables/1\n\
{'name':'u', | { | 2 /tables/1\n\
{'name':'u', | {'name':'u','rows':1, | 2 /tables/1\n\
'name':'u' | 'name':1 | 2 /tables/1/name\n\
[{'name':'a','type':'date'}] | {} | 2 /tables/1/columns\n\
{'name':'a','type':'date'} | 'a' | 2 /tables/1/columns/0\n\
,'type':'date' | | 2 /tables/1/columns/0\n\
,'type':'date' | ,'type':'date','null':true | 2 /tables/1/columns/0\n\
'type':'date' | 'type':null | 2 /tables/1/columns/0/type\n\
'name':'b' | 'name':false | 2 /tables/0/columns/1/name\n\
# Fragments and their outputs.\n\
'placement':'SINGLE', | 'placement':'SINGLE','output':{'kind':'SINGLE'}, | 2 /fragments/0\n\
'placement':'SINGLE', | | 2 /fragments/0\n\
'placement':'SINGLE','root' | 'placement':'SINGLE','roots' | 2 /fragments/0\n\
'output':{'kind':'BROADCAST'}, | | 2 /fragments/3\n\
{'id':3,'placement' | {'id':'3','placement' | 2 /fragments/3/id\n\
{'id':3,'placement' | {'id':-1,'placement' | 2 /fragments/3/id\n\
'placement':'HASH' | 'placement':'MANY' | 2 /fragments/1/placement\n\
'placement':'HASH' | 'placement':7 | 2 /fragments/1/placement\n\
{'kind':'BROADCAST'} | 'BROADCAST' | 2 /fragments/3/output\n\
{'kind':'BROADCAST'} | {} | 2 /fragments/3/output\n\
{'kind':'BROADCAST'} | {'kind':'BROADCAST','columns':[0]} | 2 /fragments/3/output\n\
{'kind':'BROADCAST'} | {'kind':'ALL','more':1} | 2 /fragments/3/output/kind\n\
{'kind':'BROADCAST'} | {'kind':7,'more':1} | 2 /fragments/3/output/kind\n\
{'kind':'HASH','columns':[6]} | {'kind':'HASH'} | 2 /fragments/2/output\n\
[6] | 6 | 2 /fragments/2/output/columns\n\
[6] | ['6'] | 2 /fragments/2/output/columns/0\n\
# Nodes and their words.\n\
'op':'union', | | 2 /fragments/3/root\n\
'op':'union', | 'op':'merge','more':1, | 2 /fragments/3/root/op\n\
'op':'union', | 'op':null,'more':1, | 2 /fragments/3/root/op\n\
{'id':11,'op':'union', | {'op':'merge', | 2 /fragments/3/root\n\
{'id':11,'op':'union', | {'op':'merge','id':'11', | 2 /fragments/3/root/id\n\
'right':{'id':13 | 'wrong':{'id':13 | 2 /fragments/3/root\n\
{'id':5,'op':'remote','fragment':2} | [] | 2 /fragments/1/root/input/left\n\
'op':'remote','fragment':2 | 'op':'remote' | 2 /fragments/1/root/input/left\n\
'fragment':3 | 'fragment':-0 | 2 /fragments/1/root/input/right/fragment\n\
'fragment':3 | 'fragment':1e3 | 2 /fragments/1/root/input/right/fragment\n\
'op':'scan','table':'u' | 'op':'scan','limit':1,'table':'u' | 2 /fragments/3/root/right/input/input\n\
'table':'u', | | 2 /fragments/3/root/right/input/input\n\
'table':'u' | 'table':1 | 2 /fragments/3/root/right/input/input/table\n\
'table':'u','columns':['a'] | 'table':'u','columns':'a' | 2 /fragments/3/root/right/input/input/columns\n\
'table':'u','columns':['a'] | 'table':'u','columns':[0] | 2 /fragments/3/root/right/input/input/columns/0\n\
'types':['bigint','date'], | | 2 /fragments/3/root/left\n\
'bigint','date' | 'bigint',7 | 2 /fragments/3/root/left/types/1\n\
['1',null] | '1' | 2 /fragments/3/root/left/rows/0\n\
['1',null] | ['1'] | 2 /fragments/3/root/left/rows/0\n\
['1',null] | ['1',null,null] | 2 /fragments/3/root/left/rows/0\n\
[null,'x'] | [null,7] | 2 /fragments/3/root/left/rows/1/1\n\
[null,'x'] | [[],{}] | 2 /fragments/3/root/left/rows/1/0\n\
[null,'x'] | [7] | 2 /fragments/3/root/left/rows/1\n\
'step':'FINAL','input' | 'step':'FINAL','count':1,'input' | 2 /fragments/0/root\n\
'step':'PARTIAL','count':7, | 'step':'PARTIAL', | 2 /fragments/1/root\n\
'op':'topn','step':'PARTIAL' | 'op':'topn','step':'HALF','more':1 | 2 /fragments/1/root/step\n\
'step':'SINGLE','count':12 | 'step':'PART' | 2 /fragments/3/root/right/step\n\
'step':'SINGLE','count':12 | 'count':12 | 2 /fragments/3/root/right\n\
'count':12 | 'count':-12 | 2 /fragments/3/root/right/count\n\
'op':'aggregate','step':'SINGLE', | 'op':'aggregate', | 2 /fragments/2/root\n\
'step':'SINGLE','keys':[8] | 'step':'FINAL','keys':[8] | 2 /fragments/2/root\n\
'step':'SINGLE','keys':[8], | 'step':'WHOLE', | 2 /fragments/2/root/step\n\
[8] | [null] | 2 /fragments/2/root/keys/0\n\
{'name':'count_all'} | {'name':'count_all','column':0} | 2 /fragments/2/root/calls/0\n\
{'name':'sum','column':9} | {'name':'median'} | 2 /fragments/2/root/calls/1\n\
{'name':'sum','column':9} | {'column':9} | 2 /fragments/2/root/calls/1\n\
'order':'DESC' | 'order':'desc' | 2 /fragments/3/root/right/input/keys/0/order\n\
{'column':13,'order':'DESC'} | {'order':'DESC'} | 2 /fragments/3/root/right/input/keys/0\n\
'kind':'INNER' | 'kind':'FULL' | 2 /fragments/1/root/input/kind\n\
[2,3] | [2,3,4] | 2 /fragments/1/root/input/on/0\n\
[2,3] | [2] | 2 /fragments/1/root/input/on/0\n\
[2,3] | [2,'3'] | 2 /fragments/1/root/input/on/0/1\n\
[2,3] | ['x',3] | 2 /fragments/1/root/input/on/0/0\n\
[2,3] | [-1,3] | 2 /fragments/1/root/input/on/0/0\n\
[2,3] | [2.5,3] | 2 /fragments/1/root/input/on/0/0\n\
[2,3] | [[2],3] | 2 /fragments/1/root/input/on/0/0\n\
[2,3] | [2,null] | 2 /fragments/1/root/input/on/0/1\n\
[2,3] | ['x',-1] | 2 /fragments/1/root/input/on/0/0\n\
[2,3] | ['x'] | 2 /fragments/1/root/input/on/0\n\
[2,3] | ['x',3],[2] | 2 /fragments/1/root/input/on/0/0\n\
[2,3] | [2],['x',3] | 2 /fragments/1/root/input/on/0\n\
[2,3] | {} | 2 /fragments/1/root/input/on/0\n\
'filters': | 'filter': | 2 /fragments/1/root/input\n\
'wait':false}] | 'wait':false},7] | 2 /fragments/1/root/input/filters/1\n\
'key':4, | | 2 /fragments/1/root/input/filters/0\n\
'wait':false | 'wait':'no' | 2 /fragments/1/root/input/filters/0/wait\n\
'wait':false | 'wait':0 | 2 /fragments/1/root/input/filters/0/wait\n\
# Expressions.\n\
'predicate': | 'condition': | 2 /fragments/2/root/input\n\
[{'col':11}] | {'col':11} | 2 /fragments/2/root/input/input/columns\n\
{'col':11} | 11 | 2 /fragments/2/root/input/input/columns/0\n\
{'col':11} | {} | 2 /fragments/2/root/input/input/columns/0\n\
{'col':11} | {'col':11,'type':'date'} | 2 /fragments/2/root/input/input/columns/0\n\
{'col':11} | {'col':11,'lit':'x'} | 2 /fragments/2/root/input/input/columns/0\n\
{'col':11} | {'lit':'x'} | 2 /fragments/2/root/input/input/columns/0\n\
{'col':11} | {'column':11} | 2 /fragments/2/root/input/input/columns/0\n\
{'col':11} | {'col':'11'} | 2 /fragments/2/root/input/input/columns/0/col\n\
'lit':'true' | 'lit':true | 2 /fragments/2/root/input/predicate/else/cast/lit\n\
{'lit':'true','type':'varchar'} | {'type':7,'lit':8} | 2 /fragments/2/root/input/predicate/else/cast/lit\n\
,'type':'varchar'},'type':'boolean' | },'type':'boolean' | 2 /fragments/2/root/input/predicate/else/cast\n\
,'type':'varchar'},'type':'boolean' | ,'type':'varchar'} | 2 /fragments/2/root/input/predicate/else\n\
{'null':'boolean'} | {'null':null} | 2 /fragments/2/root/input/predicate/case/0/when/null\n\
'when': | 'if': | 2 /fragments/2/root/input/predicate/case/0\n\
'args':[{'col':10}] | 'args':{'col':10} | 2 /fragments/2/root/input/predicate/case/0/then/args\n\
'call':'not' | 'call':1 | 2 /fragments/2/root/input/predicate/case/0/then/call\n\
'args':[{'col':10}] | 'args':[10] | 2 /fragments/2/root/input/predicate/case/0/then/args/0\n\
'else': | 'other': | 2 /fragments/2/root/input/predicate\n\
# Limits of numbers, and an aggregate of nothing.\n\
'id':15 | 'id':4294967295 | 0\n\
'id':15 | 'id':4294967296 | 3 /fragments/3/root/right/input/input/id\n\
'count':12 | 'count':2147483647 | 0\n\
'count':12 | 'count':2147483648 | 3 /fragments/3/root/right/count\n\
{'id':3,'placement' | {'id':2147483647,'placement' | 6 /fragments/3/id\n\
{'id':3,'placement' | {'id':2147483648,'placement' | 3 /fragments/3/id\n\
{'id':3,'placement' | {'id':18446744073709551615,'placement' | 3 /fragments/3/id\n\
'fragment':2 | 'fragment':2147483647 | 6 /fragments/1/root/input/left/fragment\n\
'fragment':2 | 'fragment':2147483648 | 3 /fragments/1/root/input/left/fragment\n\
'filters':[{'id':0 | 'filters':[{'id':4294967295 | 0\n\
'filters':[{'id':0 | 'filters':[{'id':4294967296 | 3 /fragments/1/root/input/filters/0/id\n\
'scan':10 | 'scan':4294967296 | 3 /fragments/1/root/input/filters/0/scan\n\
'scan':10 | 'scan':4294967295 | 0\n\
'key':4 | 'key':2147483648 | 3 /fragments/1/root/input/filters/0/key\n\
'column':5 | 'column':2147483648 | 3 /fragments/1/root/input/filters/0/column\n\
[2,3] | [2,2147483648] | 3 /fragments/1/root/input/on/0/1\n\
[2,3] | [2,2147483647] | 0\n\
[6] | [2147483648] | 3 /fragments/2/output/columns/0\n\
[8] | [2147483648] | 3 /fragments/2/root/keys/0\n\
'column':9 | 'column':2147483648 | 3 /fragments/2/root/calls/1/column\n\
'column':13 | 'column':2147483648 | 3 /fragments/3/root/right/input/keys/0/column\n\
'col':11 | 'col':2147483648 | 3 /fragments/2/root/input/input/columns/0/col\n\
'col':11 | 'col':2147483647 | 0\n\
'keys':[8],'calls':[{'name':'count_all'},{'name':'sum','column':9}] | 'keys':[],'calls':[] | 3 /fragments/2/root/calls\n\
'keys':[8] | 'keys':[] | 0\n\
[{'name':'count_all'},{'name':'sum','column':9}] | [] | 0\n\
# Names and ids.\n\
'name':'u' | 'name':'t' | 4 /tables/1/name\n\
'name':'b' | 'name':'a' | 4 /tables/0/columns/1/name\n\
'type':'date' | 'type':'Date' | 4 /tables/1/columns/0/type\n\
'type':'date' | 'type':'decimal(38,38)' | 0\n\
'type':'date' | 'type':'decimal(39,0)' | 4 /tables/1/columns/0/type\n\
'type':'date' | 'type':'decimal(2,3)' | 4 /tables/1/columns/0/type\n\
'type':'date' | 'type':'decimal(2, 1)' | 4 /tables/1/columns/0/type\n\
'null':'boolean' | 'null':'bool' | 4 /fragments/2/root/input/predicate/case/0/when/null\n\
'type':'varchar'},'type' | 'type':'text'},'type' | 4 /fragments/2/root/input/predicate/else/cast/type\n\
'bigint','date' | 'bigint','day' | 4 /fragments/3/root/left/types/1\n\
'id':15 | 'id':1 | 4 /fragments/3/root/right/input/input/id\n\
'filters':[{'id':0 | 'filters':[{'id':1 | 0\n\
'table':'u' | 'table':'v' | 4 /fragments/3/root/right/input/input/table\n\
'table':'u','columns':['a'] | 'table':'u','columns':['b'] | 4 /fragments/3/root/right/input/input/columns/0\n\
'call':'not' | 'call':'nor' | 4 /fragments/2/root/input/predicate/case/0/then/call\n\
'name':'sum' | 'name':'median' | 4 /fragments/2/root/calls/1/name\n\
# Of two faults the lower code, and then the earlier place.\n\
'output':['x','y'],'tables':[ | 'output':[],'tables':[7, | 2 /tables/0\n\
{'name':'u','columns':[{'name':'a','type':'date'}]} | {'name':'t','columns':[]} | 3 /tables/1/columns\n\
'version':1,'output':['x','y'] | 'output':7,'version':2 | 2 /version\n\
[2,3] | [2147483648,'x'] | 2 /fragments/1/root/input/on/0/1\n\
'fragment':1}}},{'id':1, | 'fragment':2147483648}}},{'id':2147483648, | 3 /fragments/0/root/input/fragment\n\
{'id':2,'placement':'SOURCE','output':{'kind':'HASH','columns':[6]} | {'id':2147483648,'placement':'SOURCE','output':{'kind':'HASH','columns':[]} | 3 /fragments/2/id\n\
{'id':3,'placement':'SOURCE','output':{'kind':'BROADCAST'},'root':{'id':11, | {'id':2147483648,'placement':'SOURCE','output':{'kind':'BROADCAST'},'root':{'id':1, | 3 /fragments/3/id\n\
{'column':13,'order':'DESC'} | {'order':0,'column':''} | 2 /fragments/3/root/right/input/keys/0/column\n\
{'id':0,'key':4,'scan':10,'column':5,'wait':false} | {'wait':0,'column':0,'scan':'','key':0,'id':0} | 2 /fragments/1/root/input/filters/0/scan";

/// A line for each list of the document: the list, an entry for a list in its place, and then how
/// many entries it may have, what is reported at most, and what is reported of a list that is too long.
pub const LISTS: &str = "\
['x','y'] | 'z' | 1..256, 0, 3 /output\n\
[{'name':'a','type':'date'}] | {'name':'a','type':'date'} | 1..256, 4 /tables/1/columns/1/name, 3 /tables/1/columns\n\
['a','b'] | 'a' | 1..256, 0, 3 /fragments/2/root/input/input/input/columns\n\
[{'col':11}] | {'col':0} | 1..256, 0, 3 /fragments/2/root/input/input/columns\n\
[[2,3]] | [0,0] | 1..16, 0, 3 /fragments/1/root/input/on\n\
[6] | 0 | 1..16, 0, 3 /fragments/2/output/columns\n\
[{'column':1,'order':'ASC'}] | {'column':0,'order':'DESC'} | 1..16, 0, 3 /fragments/1/root/keys\n\
[{'column':13,'order':'DESC'}] | {'column':0,'order':'DESC'} | 1..16, 0, 3 /fragments/3/root/right/input/keys\n\
[8] | 0 | 0..16, 0, 3 /fragments/2/root/keys\n\
[{'name':'count_all'},{'name':'sum','column':9}] | {'name':'max','column':0} | 0..64, 0, 3 /fragments/2/root/calls\n\
[{'when':{'null':'boolean'},'then':{'call':'not','args':[{'col':10}]}}] | {'when':{'col':0},'then':{'col':0}} | 1..64, 0, 3 /fragments/2/root/input/predicate/case\n\
[['1',null],[null,'x']] | ['',null] | 0..10000, 0, 3 /fragments/3/root/left/rows\n\
[{'id':0,'key':4,'scan':10,'column':5,'wait':false}] | {'id':0,'key':4,'scan':10,'column':5,'wait':false} | 0..16, 4 /fragments/1/root/input/filters/1/id, 3 /fragments/1/root/input/filters";

/// Lines as in `CASES`: each leaves out a name.
pub const NAMES: &str = "\
'x' | '' | 3 /output/0\n\
'name':'t' | 'name':'' | 3 /tables/0/name\n\
'name':'b' | 'name':'' | 3 /tables/0/columns/1/name\n\
'table':'t' | 'table':'' | 3 /fragments/2/root/input/input/input/table\n\
'b'] | ''] | 3 /fragments/2/root/input/input/input/columns/1";

/// A document of one table and one fragment.
pub const SMALL: &str = "{'version':1,'output':['a'],'tables':[{'name':'t','columns':[\
    {'name':'a','type':'bigint'}]}],'fragments':[{'id':0,'placement':'SINGLE','root':ROOT}]}";

/// One fragment more, put after the root of the last.
pub const MORE: &str = "},{'id':1,'placement':'HASH','output':{'kind':'SINGLE'},'root':ROOT";

/// A root with an expression.
pub const FILTERED: &str = "{'id':2,'op':'filter','predicate':FORM,'input':SCAN}";

pub const SCAN: &str = "{'id':1,'op':'scan','table':'t','columns':['a']}";

/// A line for each root over a scan, which stands as `SCAN` in it, and what is reported then.
pub const ROOTS: &str = "\
ROOT | SCAN | 0\n\
'id':0,'placement':'SINGLE','root':ROOT | 'id':1,'placement':'SINGLE','root':SCAN | 6 /fragments/0/id\n\
'id':0,'placement':'SINGLE','root':ROOT | 'id':2147483647,'placement':'SINGLE','root':SCAN | 6 /fragments/0/id\n\
'id':0,'placement':'SINGLE','root':ROOT | 'id':2147483648,'placement':'SINGLE','root':SCAN | 3 /fragments/0/id\n\
ROOT | {'id':2,'op':'filter','predicate':{'col':0},'input':SCAN} | 0\n\
ROOT | {'id':2,'op':'project','columns':[{'col':7}],'input':SCAN} | 0\n\
ROOT | {'id':2,'op':'limit','step':'SINGLE','count':1,'input':SCAN} | 0\n\
ROOT | {'id':2,'op':'limit','step':'PARTIAL','count':1,'input':SCAN} | 7 /fragments/0/root/step\n\
ROOT | {'id':2,'op':'sort','keys':[{'column':0,'order':'ASC'}],'input':SCAN} | 0\n\
ROOT | {'id':2,'op':'topn','step':'SINGLE','count':1,'keys':[{'column':0,'order':'DESC'}],'input':SCAN} | 0\n\
ROOT | {'id':2,'op':'topn','step':'PARTIAL','count':1,'keys':[{'column':0,'order':'DESC'}],'input':SCAN} | 7 /fragments/0/root/step\n\
ROOT | {'id':2,'op':'topn','step':'FINAL','input':{'id':3,'op':'remote','fragment':9}} | 6 /fragments/0/root/input/fragment\n\
ROOT | {'id':2,'op':'values','types':['bigint','date'],'rows':[['1',null],[null,'2000-01-01']]} | 0\n\
ROOT | {'id':2,'op':'aggregate','step':'SINGLE','keys':[0],'calls':[],'input':SCAN} | 0\n\
ROOT | {'id':2,'op':'aggregate','step':'SINGLE','keys':[],'calls':[{'name':'count_all'},{'name':'sum','column':0}],'input':SCAN} | 0\n\
ROOT | {'id':2,'op':'aggregate','step':'SINGLE','keys':[],'calls':[],'input':SCAN} | 3 /fragments/0/root/calls\n\
ROOT | {'id':2,'op':'aggregate','step':'PARTIAL','keys':[0],'calls':[],'input':SCAN} | 7 /fragments/0/root/step\n\
ROOT | {'id':2,'op':'aggregate','step':'FINAL','input':{'id':3,'op':'remote','fragment':9}} | 6 /fragments/0/root/input/fragment\n\
ROOT | {'id':2,'op':'join','kind':'INNER','on':[[0,0]],'left':SCAN,'right':{'id':3,'op':'scan','table':'t','columns':['a']}} | 0\n\
ROOT | {'id':2,'op':'join','kind':'LEFT','on':[[0,0]],'left':SCAN,'right':{'id':3,'op':'scan','table':'t','columns':['a']},'filters':[]} | 0\n\
ROOT | {'id':2,'op':'join','kind':'INNER','on':[[0,0]],'left':SCAN,'right':{'id':3,'op':'scan','table':'t','columns':['a']},'filters':[{'id':0,'key':0,'scan':1,'column':0,'wait':false}]} | 0\n\
ROOT | {'id':2,'op':'join','kind':'INNER','on':[[0,0]],'left':SCAN,'right':{'id':3,'op':'remote','fragment':9},'filters':[{'id':0,'key':0,'scan':1,'column':0,'wait':false}]} | 6 /fragments/0/root/right/fragment\n\
ROOT | {'id':2,'op':'join','kind':'INNER','on':[[0,0]],'left':{'id':3,'op':'union','left':SCAN,'right':{'id':4,'op':'scan','table':'t','columns':['a']}},'right':{'id':5,'op':'remote','fragment':9}} | 6 /fragments/0/root/right/fragment\n\
ROOT | {'id':2,'op':'union','left':SCAN,'right':{'id':3,'op':'scan','table':'t','columns':['a']}} | 0\n\
ROOT | {'id':2,'op':'filter','predicate':{'col':0},'input':{'id':3,'op':'remote','fragment':9}} | 6 /fragments/0/root/input/fragment\n\
ROOT | {'id':2,'op':'scan','table':'z','columns':['a']} | 4 /fragments/0/root/table\n\
ROOT | {'id':2,'op':'limit','step':'SINGLE','count':2147483648,'input':SCAN} | 3 /fragments/0/root/count";

/// Lines as in `CASES`, on what fragments and halves have to do with one another.
pub const LINKS: &str = "\
'version':1, | 'version':1, | 0\n\
# Code 6: ids of fragments, and what sources read.\n\
{'id':3,'placement' | {'id':2,'placement' | 6 /fragments/3/id\n\
{'id':3,'placement' | {'id':2147483647,'placement' | 6 /fragments/3/id\n\
'fragment':3 | 'fragment':4 | 6 /fragments/1/root/input/right/fragment\n\
'fragment':3 | 'fragment':2147483647 | 6 /fragments/1/root/input/right/fragment\n\
'fragment':3 | 'fragment':2 | 6 /fragments/1/root/input/right/fragment\n\
'fragment':3 | 'fragment':1 | 6 /fragments/1/root/input/right/fragment\n\
{'id':6,'op':'remote','fragment':3} | {'id':6,'op':'scan','table':'u','columns':['a']} | 6 /fragments/3\n\
# Code 7: halves of operators.\n\
'op':'topn','step':'FINAL' | 'op':'limit','step':'FINAL' | 7 /fragments/0/root/step\n\
'step':'PARTIAL','count':7 | 'step':'SINGLE','count':7 | 7 /fragments/0/root/step\n\
'step':'SINGLE','keys':[8] | 'step':'PARTIAL','keys':[8] | 7 /fragments/2/root/step\n\
'step':'SINGLE','count':12 | 'step':'PARTIAL','count':12 | 7 /fragments/3/root/right/step\n\
'step':'SINGLE','count':12,'input' | 'step':'FINAL','input' | 7 /fragments/3/root/right/step";
