/// A count of the rows of a join whose filter names the scan on its left side, written with `'` for the quotation mark.
pub const ALONE: &str = "{'version':1,'output':['n'],'tables':[{'name':'t','columns':[\
    {'name':'a','type':'bigint'},{'name':'b','type':'bigint'},{'name':'c','type':'boolean'},\
    {'name':'d','type':'varchar'}]}],'fragments':[{'id':0,'placement':'SINGLE','root':\
    {'id':1,'op':'aggregate','step':'SINGLE','keys':[],'calls':[{'name':'count_all'}],'input':\
    {'id':2,'op':'join','kind':'INNER','on':[[1,0]],'left':SCAN,\
    'right':{'id':3,'op':'scan','table':'t','columns':['b']},\
    'filters':[{'id':7,'key':0,'scan':4,'column':1,'wait':true}]}}}]}";

/// What stands for `SCAN`.
pub const SCAN: &str = "{'id':4,'op':'scan','table':'t','columns':['a','b','c','d']}";

/// A text of that document, what is put in its place, and the code and the path that are reported, 0 where it is a plan.
pub const STEPS: &str = "\
'wait':true | 'wait':false | 0\n\
# What the filter names.\n\
'key':0 | 'key':1 | 9 /fragments/0/root/input/filters/0\n\
'scan':4 | 'scan':3 | 9 /fragments/0/root/input/filters/0\n\
'scan':4 | 'scan':2 | 9 /fragments/0/root/input/filters/0\n\
'scan':4 | 'scan':9 | 9 /fragments/0/root/input/filters/0\n\
'column':1 | 'column':0 | 9 /fragments/0/root/input/filters/0\n\
'column':1 | 'column':4 | 9 /fragments/0/root/input/filters/0\n\
[[1,0]] | [[0,0]] | 9 /fragments/0/root/input/filters/0\n\
[[1,0]] | [[0,0],[1,0]] | 9 /fragments/0/root/input/filters/0\n\
[[1,0]] | [[1,0],[0,0]] | 0\n\
'kind':'INNER' | 'kind':'LEFT' | 9 /fragments/0/root/input/filters/0\n\
[{'id':7 | [{'id':6,'key':0,'scan':4,'column':1,'wait':true},{'id':7 | 0\n\
[{'id':7,'key':0 | [{'id':6,'key':0,'scan':4,'column':1,'wait':true},{'id':7,'key':1 | 9 /fragments/0/root/input/filters/1\n\
# Filters on the way: nothing in them may fail, by the types of their columns.\n\
SCAN | {'id':5,'op':'filter','predicate':{'call':'>','args':[{'col':0},{'col':1}]},'input':SCAN} | 0\n\
SCAN | {'id':5,'op':'filter','predicate':{'call':'>','args':[{'call':'/','args':[{'col':0},{'col':1}]},{'col':1}]},'input':SCAN} | 9 /fragments/0/root/input/filters/0\n\
SCAN | {'id':5,'op':'filter','predicate':{'call':'like','args':[{'cast':{'col':0},'type':'varchar'},{'col':3}]},'input':SCAN} | 0\n\
SCAN | {'id':5,'op':'filter','predicate':{'call':'=','args':[{'cast':{'col':0},'type':'bigint'},{'col':1}]},'input':SCAN} | 0\n\
SCAN | {'id':5,'op':'filter','predicate':{'call':'=','args':[{'cast':{'call':'coalesce','args':[{'col':0},{'col':1}]},'type':'bigint'},{'col':1}]},'input':SCAN} | 0\n\
SCAN | {'id':5,'op':'filter','predicate':{'cast':{'col':3},'type':'boolean'},'input':SCAN} | 9 /fragments/0/root/input/filters/0\n\
# Projects: nothing in any column may fail, and the column is one of the input.\n\
SCAN | {'id':5,'op':'project','columns':[{'null':'date'},{'col':1}],'input':SCAN} | 0\n\
SCAN | {'id':5,'op':'project','columns':[{'col':1},{'col':0}],'input':SCAN} | 9 /fragments/0/root/input/filters/0\n\
SCAN | {'id':5,'op':'project','columns':[{'cast':{'col':2},'type':'varchar'},{'col':1}],'input':SCAN} | 0\n\
SCAN | {'id':5,'op':'project','columns':[{'call':'neg','args':[{'col':0}]},{'col':1}],'input':SCAN} | 9 /fragments/0/root/input/filters/0\n\
SCAN | {'id':5,'op':'project','columns':[{'col':0},{'call':'coalesce','args':[{'col':1},{'col':1}]}],'input':SCAN} | 9 /fragments/0/root/input/filters/0\n\
SCAN | {'id':5,'op':'project','columns':[{'col':0},{'cast':{'col':1},'type':'bigint'}],'input':SCAN} | 9 /fragments/0/root/input/filters/0\n\
SCAN | {'id':5,'op':'project','columns':[{'col':1},{'col':2}],'input':{'id':6,'op':'project','columns':[{'col':0},{'col':0},{'col':1}],'input':SCAN}} | 0\n\
# Joins: inner ones, and only with the column on their left side.\n\
SCAN | {'id':5,'op':'join','kind':'INNER','on':[[0,0]],'left':SCAN,'right':{'id':6,'op':'scan','table':'t','columns':['a','b']}} | 0\n\
SCAN | {'id':5,'op':'join','kind':'LEFT','on':[[0,0]],'left':SCAN,'right':{'id':6,'op':'scan','table':'t','columns':['a','b']}} | 9 /fragments/0/root/input/filters/0\n\
'left':SCAN | 'left':{'id':5,'op':'join','kind':'INNER','on':[[0,0]],'left':{'id':4,'op':'scan','table':'t','columns':['a','b']},'right':{'id':6,'op':'scan','table':'t','columns':['a']}} | 0\n\
'on':[[1,0]],'left':SCAN | 'on':[[2,0]],'left':{'id':5,'op':'join','kind':'INNER','on':[[0,0]],'left':{'id':6,'op':'scan','table':'t','columns':['a']},'right':SCAN} | 9 /fragments/0/root/input/filters/0\n\
'on':[[1,0]],'left':SCAN | 'on':[[3,0]],'left':{'id':5,'op':'join','kind':'INNER','on':[[0,0]],'left':{'id':6,'op':'scan','table':'t','columns':['a','b']},'right':SCAN} | 9 /fragments/0/root/input/filters/0\n\
# Nodes through which no way leads.\n\
SCAN | {'id':5,'op':'limit','step':'SINGLE','count':3,'input':SCAN} | 9 /fragments/0/root/input/filters/0\n\
SCAN | {'id':5,'op':'sort','keys':[{'column':0,'order':'ASC'}],'input':SCAN} | 9 /fragments/0/root/input/filters/0\n\
SCAN | {'id':5,'op':'topn','step':'SINGLE','count':3,'keys':[{'column':0,'order':'ASC'}],'input':SCAN} | 9 /fragments/0/root/input/filters/0\n\
SCAN | {'id':5,'op':'aggregate','step':'SINGLE','keys':[0,1],'calls':[],'input':SCAN} | 9 /fragments/0/root/input/filters/0\n\
SCAN | {'id':5,'op':'union','left':SCAN,'right':{'id':6,'op':'scan','table':'t','columns':['a','b','c','d']}} | 9 /fragments/0/root/input/filters/0\n\
SCAN | {'id':4,'op':'values','types':['bigint','bigint'],'rows':[]} | 9 /fragments/0/root/input/filters/0\n\
# Filters of either side come before those of the join above, and types before all.\n\
'left':SCAN | 'left':{'id':5,'op':'join','kind':'INNER','on':[[0,0]],'left':SCAN,'right':{'id':6,'op':'scan','table':'t','columns':['a']},'filters':[{'id':8,'key':0,'scan':4,'column':0,'wait':true}]} | 0\n\
'left':SCAN | 'left':{'id':5,'op':'join','kind':'LEFT','on':[[0,0]],'left':SCAN,'right':{'id':6,'op':'scan','table':'t','columns':['a']},'filters':[{'id':8,'key':0,'scan':4,'column':0,'wait':true}]} | 9 /fragments/0/root/input/left/filters/0\n\
'left':SCAN,'right':{'id':3,'op':'scan','table':'t','columns':['b']},'filters':[{'id':7,'key':0 | 'left':SCAN,'right':{'id':3,'op':'join','kind':'INNER','on':[[0,0]],'left':{'id':5,'op':'scan','table':'t','columns':['b']},'right':{'id':6,'op':'scan','table':'t','columns':['a']},'filters':[{'id':8,'key':1,'scan':5,'column':0,'wait':true}]},'filters':[{'id':7,'key':1 | 9 /fragments/0/root/input/right/filters/0\n\
'left':SCAN,'right':{'id':3,'op':'scan','table':'t','columns':['b']},'filters':[{'id':7,'key':0 | 'left':SCAN,'right':{'id':3,'op':'join','kind':'INNER','on':[[0,0]],'left':{'id':5,'op':'scan','table':'t','columns':['b']},'right':{'id':6,'op':'scan','table':'t','columns':['a']},'filters':[{'id':8,'key':0,'scan':5,'column':0,'wait':true}]},'filters':[{'id':7,'key':1 | 9 /fragments/0/root/input/filters/0\n\
'output':['n'],'tables' | 'output':['n','m'],'tables' | 5 /output";

/// A join of several tasks, whose filter names the scan of another fragment.
pub const ACROSS: &str = "{'version':1,'output':['x','y'],'tables':[{'name':'t','columns':[\
    {'name':'a','type':'bigint'},{'name':'b','type':'bigint'}]}],'fragments':[\
    {'id':0,'placement':'SINGLE','root':{'id':1,'op':'remote','fragment':1}},\
    {'id':1,'placement':'HASH','output':{'kind':'SINGLE'},'root':\
    {'id':2,'op':'join','kind':'INNER','on':[[0,0]],'left':{'id':3,'op':'remote','fragment':2},\
    'right':{'id':4,'op':'remote','fragment':3},\
    'filters':[{'id':0,'key':0,'scan':5,'column':1,'wait':false}]}},\
    {'id':2,'placement':'SOURCE','output':{'kind':'HASH','columns':[0]},'root':\
    {'id':6,'op':'project','columns':[{'col':1}],'input':\
    {'id':5,'op':'scan','table':'t','columns':['a','b']}}},\
    {'id':3,'placement':'SOURCE','output':{'kind':'HASH','columns':[0]},'root':\
    {'id':7,'op':'scan','table':'t','columns':['a']}}]}";

/// Lines as in `STEPS`, of that document.
pub const SOURCES: &str = "\
'wait':false | 'wait':true | 0\n\
'scan':5 | 'scan':7 | 9 /fragments/1/root/filters/0\n\
'scan':5 | 'scan':3 | 9 /fragments/1/root/filters/0\n\
'column':1 | 'column':0 | 9 /fragments/1/root/filters/0\n\
[{'col':1}] | [{'col':0}] | 9 /fragments/1/root/filters/0\n\
[{'col':1}] | [{'call':'+','args':[{'col':1},{'col':0}]}] | 9 /fragments/1/root/filters/0\n\
'fragment':2},'right':{'id':4,'op':'remote','fragment':3} | 'fragment':3},'right':{'id':4,'op':'remote','fragment':2} | 9 /fragments/1/root/filters/0\n\
{'id':1,'op':'remote','fragment':1} | {'id':8,'op':'project','columns':[{'col':0},{'col':1}],'input':{'id':9,'op':'join','kind':'INNER','on':[[0,0]],'left':{'id':1,'op':'remote','fragment':1},'right':{'id':10,'op':'scan','table':'t','columns':['a']},'filters':[{'id':1,'key':0,'scan':5,'column':1,'wait':true}]}} | 0\n\
{'id':1,'op':'remote','fragment':1} | {'id':8,'op':'project','columns':[{'col':0},{'col':1}],'input':{'id':9,'op':'join','kind':'INNER','on':[[1,0]],'left':{'id':1,'op':'remote','fragment':1},'right':{'id':10,'op':'scan','table':'t','columns':['a']},'filters':[{'id':1,'key':0,'scan':7,'column':0,'wait':true}]}} | 9 /fragments/0/root/input/filters/0\n\
{'id':1,'op':'remote','fragment':1}},{'id':1, | {'id':8,'op':'project','columns':[{'col':0},{'col':1}],'input':{'id':9,'op':'join','kind':'INNER','on':[[0,0]],'left':{'id':1,'op':'remote','fragment':1},'right':{'id':10,'op':'scan','table':'t','columns':['a']},'filters':[{'id':1,'key':1,'scan':5,'column':1,'wait':true}]}}},{'id':1, | 9 /fragments/0/root/input/filters/0";
