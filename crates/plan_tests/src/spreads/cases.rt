/// A fragment of the kind HASH over two that scan tables, with `'` for the quotation mark.
pub const HASHED: &str = "{'output':['x'],'tables':[{'name':'t','columns':[\
    {'name':'a','type':'bigint'},{'name':'b','type':'bigint'}]}],'fragments':[\
    {'placement':'SINGLE','root':{'op':'sort','keys':[],'input':{'op':'remote','fragment':1}}},\
    {'placement':'HASH','output':{'kind':'SINGLE'},'root':ROOT},\
    {'placement':'SOURCE','output':{'kind':'HASH','columns':[0,1]},'root':\
    {'op':'scan','table':'t','columns':['a','b']}},\
    {'placement':'SOURCE','output':{'kind':'HASH','columns':[1,0]},'root':\
    {'op':'scan','table':'t','columns':['a','b']}}]}";

pub const FIRST: &str = "{'op':'remote','fragment':2}";

pub const SECOND: &str = "{'op':'remote','fragment':3}";

pub const VALUES: &str = "{'op':'values','types':['bigint','bigint'],'rows':[['1','2']]}";

/// The root of the fragment, and the spreads of all fragments or the place at which the placement is broken.
pub const ROOTS: &str = "\
ROOT | FIRST | whole by:0:1 any any\n\
ROOT | {'op':'scan','table':'t','columns':['a']} | /fragments/1/root\n\
ROOT | VALUES | /fragments/1/root\n\
ROOT | {'op':'filter','predicate':{'call':'is_null','args':[{'col':0}]},'input':FIRST} | whole by:0:1 any any\n\
ROOT | {'op':'project','columns':[{'null':'date'},{'col':1},{'col':0},{'col':1}],'input':FIRST} | whole by:2:1 any any\n\
ROOT | {'op':'project','columns':[{'col':1}],'input':FIRST} | whole any any any\n\
ROOT | {'op':'project','columns':[{'col':0},{'call':'neg','args':[{'col':1}]}],'input':FIRST} | whole any any any\n\
ROOT | {'op':'project','columns':[{'col':1},{'col':0}],'input':{'op':'project','columns':[{'col':0}],'input':FIRST}} | whole any any any\n\
ROOT | {'op':'join','kind':'INNER','on':[[0,1],[1,0]],'left':FIRST,'right':SECOND} | whole by:0:1 any any\n\
ROOT | {'op':'join','kind':'LEFT','on':[[0,0],[1,0],[0,1]],'left':FIRST,'right':SECOND} | whole by:0:1 any any\n\
ROOT | {'op':'join','kind':'INNER','on':[[0,0],[1,1]],'left':FIRST,'right':SECOND} | /fragments/1/root\n\
ROOT | {'op':'join','kind':'INNER','on':[[0,1]],'left':FIRST,'right':SECOND} | /fragments/1/root\n\
ROOT | {'op':'join','kind':'INNER','on':[[0,1]],'left':{'op':'project','columns':[{'col':0}],'input':FIRST},'right':SECOND} | /fragments/1/root\n\
ROOT | {'op':'join','kind':'LEFT','on':[[0,1]],'left':FIRST,'right':VALUES} | whole by:0:1 any any\n\
ROOT | {'op':'join','kind':'LEFT','on':[[0,1]],'left':{'op':'project','columns':[{'col':0}],'input':FIRST},'right':VALUES} | whole any any any\n\
ROOT | {'op':'join','kind':'INNER','on':[[0,1]],'left':VALUES,'right':FIRST} | /fragments/1/root\n\
ROOT | {'op':'join','kind':'INNER','on':[[0,1]],'left':FIRST,'right':{'op':'join','kind':'INNER','on':[[0,0]],'left':VALUES,'right':VALUES}} | whole by:0:1 any any\n\
ROOT | {'op':'aggregate','step':'PARTIAL','keys':[],'calls':[],'input':FIRST} | whole any any any\n\
ROOT | {'op':'aggregate','step':'PARTIAL','keys':[],'calls':[],'input':VALUES} | /fragments/1/root\n\
ROOT | {'op':'aggregate','step':'SINGLE','keys':[1,0,1],'calls':[],'input':FIRST} | whole by:1:0 any any\n\
ROOT | {'op':'aggregate','step':'SINGLE','keys':[0],'calls':[],'input':FIRST} | /fragments/1/root\n\
ROOT | {'op':'aggregate','step':'SINGLE','keys':[],'calls':[],'input':FIRST} | /fragments/1/root\n\
ROOT | {'op':'aggregate','step':'SINGLE','keys':[0,1],'calls':[],'input':VALUES} | /fragments/1/root\n\
ROOT | {'op':'aggregate','step':'FINAL','input':FIRST} | /fragments/1/root\n\
ROOT | {'op':'sort','keys':[],'input':FIRST} | /fragments/1/root\n\
ROOT | {'op':'topn','step':'PARTIAL','count':1,'keys':[],'input':FIRST} | whole any any any\n\
ROOT | {'op':'topn','step':'SINGLE','count':1,'keys':[],'input':FIRST} | /fragments/1/root\n\
ROOT | {'op':'topn','step':'FINAL','input':FIRST} | /fragments/1/root\n\
ROOT | {'op':'limit','step':'PARTIAL','count':1,'input':FIRST} | whole any any any\n\
ROOT | {'op':'limit','step':'PARTIAL','count':1,'input':VALUES} | /fragments/1/root\n\
ROOT | {'op':'limit','step':'SINGLE','count':1,'input':FIRST} | /fragments/1/root\n\
ROOT | {'op':'limit','step':'FINAL','input':FIRST} | /fragments/1/root\n\
ROOT | {'op':'union','left':FIRST,'right':SECOND} | whole any any any\n\
ROOT | {'op':'union','left':VALUES,'right':VALUES} | /fragments/1/root\n\
ROOT | {'op':'join','kind':'INNER','on':[[0,1]],'left':FIRST,'right':{'op':'union','left':VALUES,'right':VALUES}} | whole by:0:1 any any\n\
ROOT | {'op':'union','left':FIRST,'right':VALUES} | /fragments/1/root\n\
ROOT | {'op':'limit','step':'SINGLE','count':1,'input':{'op':'filter','predicate':{'col':0},'input':{'op':'sort','keys':[],'input':FIRST}}} | /fragments/1/root/input/input\n\
ROOT | {'op':'union','left':{'op':'sort','keys':[],'input':FIRST},'right':{'op':'sort','keys':[],'input':SECOND}} | /fragments/1/root/left\n\
ROOT | {'op':'join','kind':'INNER','on':[[0,0]],'left':FIRST,'right':{'op':'sort','keys':[],'input':SECOND}} | /fragments/1/root/right";

/// A document whose aggregate has two halves.
pub const TWO: &str = "{'output':['x'],'tables':[{'name':'t','columns':[\
    {'name':'a','type':'bigint'},{'name':'b','type':'bigint'}]}],'fragments':[\
    {'placement':'SINGLE','root':{'op':'remote','fragment':1}},\
    {'placement':'HASH','output':{'kind':'SINGLE'},'root':\
    {'op':'aggregate','step':'FINAL','input':{'op':'remote','fragment':2}}},\
    {'placement':'SOURCE','output':{'kind':'HASH','columns':[0]},'root':\
    {'op':'aggregate','step':'PARTIAL','keys':[1],'calls':[{'name':'sum','column':0}],\
    'input':{'op':'scan','table':'t','columns':['a','b']}}}]}";

/// A text of that document, what is put in its place, and what is reported then.
pub const HALVES: &str = "\
[1] | [1] | whole by:0 any\n\
[1] | [] | /fragments/1/root\n\
'columns':[0]} | 'columns':[1]} | /fragments/1/root\n\
'columns':[0]},'root':{'op':'aggregate','step':'PARTIAL','keys':[1] | 'columns':[1,0]},'root':{'op':'aggregate','step':'PARTIAL','keys':[1,0] | whole by:1:0 any\n\
'SINGLE','root' | 'SOURCE','root' | /fragments/0/placement\n\
'SINGLE','root' | 'HASH','root' | /fragments/0/placement\n\
{'kind':'SINGLE'} | {'kind':'BROADCAST'} | /fragments/0/root\n\
{'kind':'SINGLE'} | {'kind':'HASH','columns':[0]} | /fragments/0/root\n\
'HASH','output' | 'SOURCE','output' | /fragments/1/root/input\n\
'HASH','output' | 'SINGLE','output' | /fragments/1/root/input\n\
'HASH','output':{'kind':'SINGLE'},'root':{'op':'aggregate','step':'FINAL','input':{'op':'remote','fragment':2}}},{'placement':'SOURCE','output':{'kind':'HASH','columns':[0]} | 'SINGLE','output':{'kind':'SINGLE'},'root':{'op':'aggregate','step':'FINAL','input':{'op':'remote','fragment':2}}},{'placement':'SOURCE','output':{'kind':'SINGLE'} | whole whole any\n\
{'kind':'HASH','columns':[0]} | {'kind':'BROADCAST'} | /fragments/1/root\n\
{'kind':'HASH','columns':[0]} | {'kind':'SINGLE'} | /fragments/1/root/input\n\
'SOURCE' | 'SINGLE' | whole by:0 whole\n\
'SOURCE' | 'HASH' | /fragments/2/root/input\n\
'fragment':2 | 'fragment':9 | /fragments/1/root/input\n\
'fragment':2 | 'fragment':1 | /fragments/1/root/input\n\
'fragment':2 | 'fragment':0 | /fragments/1/root/input";

/// A document of four fragments, three of which are not placed right.
pub const THREE: &str = "{'output':['x'],'tables':[{'name':'t','columns':[\
    {'name':'a','type':'bigint'}]}],'fragments':[\
    {'placement':'SINGLE','root':{'op':'remote','fragment':1}},\
    {'placement':'HASH','output':{'kind':'SINGLE'},'root':\
    {'op':'sort','keys':[],'input':{'op':'remote','fragment':2}}},\
    {'placement':'SOURCE','output':{'kind':'HASH','columns':[0]},'root':\
    {'op':'join','kind':'INNER','on':[[0,0]],'left':{'op':'scan','table':'t','columns':['a']},\
    'right':{'op':'remote','fragment':3}}},\
    {'placement':'SOURCE','output':{'kind':'SINGLE'},'root':\
    {'op':'limit','step':'SINGLE','count':1,'input':{'op':'scan','table':'t','columns':['a']}}}]}";

/// The sources come before the nodes, and the earlier fragment before the later one.
pub const OTHERS: &str = "\
'sort' | 'sort' | /fragments/2/root/right\n\
'SOURCE','output':{'kind':'SINGLE'} | 'SOURCE','output':{'kind':'BROADCAST'} | /fragments/1/root\n\
'SOURCE','output':{'kind':'SINGLE'},'root':{'op':'limit','step':'SINGLE' | 'SOURCE','output':{'kind':'BROADCAST'},'root':{'op':'limit','step':'PARTIAL' | /fragments/1/root\n\
'HASH','output':{'kind':'SINGLE'},'root':{'op':'sort','keys':[],'input':{'op':'remote','fragment':2}}} | 'HASH','output':{'kind':'SINGLE'},'root':{'op':'remote','fragment':2}} | /fragments/2/root/right";
