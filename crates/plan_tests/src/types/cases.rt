/// A document of one table, with `'` for the quotation mark.
pub const WHOLE: &str = "{'output':NAMES,'tables':[{'name':'t','columns':[\
    {'name':'a','type':'bigint'},{'name':'b','type':'varchar'},\
    {'name':'d','type':'decimal(18,2)'},{'name':'e','type':'decimal(19,2)'}]}],\
    'fragments':[{'placement':'SINGLE','root':ROOT}]}";

pub const SCAN: &str = "{'op':'scan','table':'t','columns':['a','b','d','e']}";

/// A mark for each name of the result, a root, and its types or the path that does not fit.
pub const ROOTS: &str = "\
.... | SCAN | bigint varchar decimal(18,2) decimal(19,2)\n\
... | SCAN | /output\n\
..... | SCAN | /output\n\
.. | {'op':'scan','table':'t','columns':['e','a']} | decimal(19,2) bigint\n\
.. | {'op':'values','types':['bigint','date'],'rows':[['1',null],[null,'2024-02-29']]} | bigint date\n\
.. | {'op':'values','types':['bigint','date'],'rows':[['1',null],[null,'2023-02-29']]} | /fragments/0/root/rows/1/1\n\
.. | {'op':'values','types':['boolean','date'],'rows':[['true',null],['yes','']]} | /fragments/0/root/rows/1/0\n\
. | {'op':'values','types':['bigint'],'rows':[]} | bigint\n\
. | {'op':'values','types':['decimal(2,1)'],'rows':[['9.9'],['10']]} | /fragments/0/root/rows/1/0\n\
.... | {'op':'filter','predicate':{'call':'is_null','args':[{'col':3}]},'input':SCAN} | bigint varchar decimal(18,2) decimal(19,2)\n\
.... | {'op':'filter','predicate':{'col':0},'input':SCAN} | /fragments/0/root/predicate\n\
.... | {'op':'filter','predicate':{'col':4},'input':SCAN} | /fragments/0/root/predicate\n\
.... | {'op':'filter','predicate':{'call':'=','args':[{'col':0},{'lit':'x','type':'bigint'}]},'input':SCAN} | /fragments/0/root/predicate/args/1/lit\n\
.. | {'op':'project','columns':[{'col':1},{'cast':{'col':0},'type':'decimal(3,1)'}],'input':SCAN} | varchar decimal(3,1)\n\
.. | {'op':'project','columns':[{'col':1},{'cast':{'col':0},'type':'date'}],'input':SCAN} | /fragments/0/root/columns/1\n\
.. | {'op':'project','columns':[{'col':1},{'col':9}],'input':{'op':'filter','predicate':{'col':9},'input':SCAN}} | /fragments/0/root/input/predicate\n\
........ | {'op':'join','kind':'LEFT','on':[[0,0],[3,3]],'left':SCAN,'right':SCAN} | bigint varchar decimal(18,2) decimal(19,2) bigint varchar decimal(18,2) decimal(19,2)\n\
........ | {'op':'join','kind':'LEFT','on':[[0,0],[2,3]],'left':SCAN,'right':SCAN} | /fragments/0/root/on/1\n\
........ | {'op':'join','kind':'LEFT','on':[[4,0]],'left':SCAN,'right':SCAN} | /fragments/0/root/on/0\n\
........ | {'op':'join','kind':'LEFT','on':[[0,4]],'left':SCAN,'right':SCAN} | /fragments/0/root/on/0\n\
........ | {'op':'join','on':[[9,9]],'left':{'op':'limit','input':{'op':'filter','predicate':{'col':0},'input':SCAN}},'right':{'op':'filter','predicate':{'col':0},'input':SCAN}} | /fragments/0/root/left/input/predicate\n\
........ | {'op':'join','on':[[9,9]],'left':SCAN,'right':{'op':'filter','predicate':{'col':0},'input':SCAN}} | /fragments/0/root/right/predicate\n\
....... | {'op':'aggregate','step':'SINGLE','keys':[1],'calls':[{'name':'count_all'},{'name':'count','column':1},{'name':'sum','column':0},{'name':'sum','column':2},{'name':'min','column':1},{'name':'avg','column':2}],'input':SCAN} | varchar bigint bigint bigint decimal(38,2) varchar decimal(18,2)\n\
. | {'op':'aggregate','step':'SINGLE','keys':[0,4],'calls':[],'input':SCAN} | /fragments/0/root/keys/1\n\
. | {'op':'aggregate','step':'SINGLE','keys':[],'calls':[{'name':'count','column':4}],'input':SCAN} | /fragments/0/root/calls/0\n\
. | {'op':'aggregate','step':'SINGLE','keys':[],'calls':[{'name':'sum','column':1}],'input':SCAN} | /fragments/0/root/calls/0\n\
.. | {'op':'aggregate','step':'SINGLE','keys':[],'calls':[{'name':'max','column':3},{'name':'sum','column':3}],'input':SCAN} | /fragments/0/root/calls/1\n\
. | {'op':'aggregate','step':'SINGLE','keys':[],'calls':[{'name':'avg','column':0}],'input':SCAN} | /fragments/0/root/calls/0\n\
. | {'op':'aggregate','step':'SINGLE','keys':[9],'calls':[{'name':'avg','column':0}],'input':SCAN} | /fragments/0/root/keys/0\n\
.... | {'op':'sort','keys':[{'column':3,'order':'ASC'}],'input':SCAN} | bigint varchar decimal(18,2) decimal(19,2)\n\
.... | {'op':'sort','keys':[{'column':3,'order':'ASC'},{'column':4,'order':'ASC'}],'input':SCAN} | /fragments/0/root/keys/1\n\
.... | {'op':'topn','step':'SINGLE','count':1,'keys':[{'column':4,'order':'ASC'}],'input':SCAN} | /fragments/0/root/keys/0\n\
.... | {'op':'limit','step':'SINGLE','count':1,'input':SCAN} | bigint varchar decimal(18,2) decimal(19,2)\n\
.... | {'op':'union','left':SCAN,'right':SCAN} | bigint varchar decimal(18,2) decimal(19,2)\n\
.... | {'op':'union','left':SCAN,'right':{'op':'scan','table':'t','columns':['a','b','d','d']}} | /fragments/0/root\n\
.... | {'op':'union','left':SCAN,'right':{'op':'scan','table':'t','columns':['a','b','d']}} | /fragments/0/root\n\
... | {'op':'union','left':{'op':'scan','table':'t','columns':['a','b','d']},'right':SCAN} | /fragments/0/root";

/// A document whose aggregate has two halves.
pub const TWO: &str = "{'output':['x','y','z'],'tables':[{'name':'t','columns':[\
    {'name':'a','type':'bigint'},{'name':'d','type':'decimal(12,3)'}]}],\
    'fragments':[{'placement':'SINGLE','root':\
    {'op':'aggregate','step':'FINAL','input':{'op':'remote','fragment':1}}},\
    {'placement':'SOURCE','output':{'kind':'HASH','columns':[5]},'root':\
    {'op':'aggregate','step':'PARTIAL','keys':[0],\
    'calls':[{'name':'avg','column':1},{'name':'sum','column':0}],\
    'input':{'op':'scan','table':'t','columns':['a','d']}}}]}";

/// A text of that document, what is put in its place, and what is reported then. Between its halves
/// the rows have 5 columns, and the last of them is at place 4.
pub const HALVES: &str = "\
[5] | [4] | bigint decimal(12,3) bigint\n\
[5] | [5] | /fragments/1/output/columns/0\n\
'columns':[5] | 'columns':[0,4,9] | /fragments/1/output/columns/2\n\
'kind':'HASH','columns':[5] | 'kind':'SINGLE' | bigint decimal(12,3) bigint\n\
{'op':'aggregate','step':'FINAL','input':{'op':'remote','fragment':1}} | {'op':'remote','fragment':1} | /fragments/1/output/columns/0\n\
'kind':'HASH','columns':[5]},'root':{'op':'aggregate','step':'PARTIAL','keys':[0] | 'kind':'HASH','columns':[5]},'root':{'op':'aggregate','step':'PARTIAL','keys':[7] | /fragments/1/root/keys/0";
