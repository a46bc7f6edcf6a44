/// A document, with `'` for the quotation mark.
pub const DOCUMENT: &str = "{'output':['x'],'tables':[{'name':'t','columns':[\
    {'name':'a','type':'bigint'}]}],'fragments':[FRAGMENTS]}";

pub const SCAN: &str = "'op':'scan','table':'t','columns':['a']}";

pub const VALUES: &str = "'op':'values','types':['bigint'],'rows':[['1']]}";

/// Tasks and drivers, fragments, and the pipes of the layout. Each is: its fragment, tasks and drivers; the first number
/// and what each task adds; the source; the steps, each with its node; and the target. Another pipe is named by its place.
pub const LAYOUTS: &str = "\
3 3 | {'placement':'SINGLE','root':{'id':1,SCAN} | f0 1x1 0+1 t0 > result\n\
3 3 | {'placement':'SINGLE','root':{'id':1,VALUES} | f0 1x1 0+1 rows > result\n\
2 2 | {'placement':'SINGLE','root':{'id':1,'op':'sort','keys':[],'input':{'id':2,'op':'aggregate','step':'FINAL','input':{'id':3,'op':'remote','fragment':1}}}},\
{'placement':'SOURCE','output':{'kind':'SINGLE'},'root':{'id':4,'op':'aggregate','step':'PARTIAL','keys':[0],'calls':[],\
'input':{'id':5,'op':'project','columns':[{'col':0}],'input':{'id':6,'op':'filter','predicate':{'col':0},'input':{'id':7,SCAN}}}} \
| f0 1x1 0+2 f1 final2 sort1 > result; f0 1x1 1+2 e0:0+1 > takers0; f1 2x2 2+2 t0 filter6 project5 partial4 > one0\n\
2 2 | {'placement':'SINGLE','root':{'id':1,'op':'remote','fragment':1}},\
{'placement':'HASH','output':{'kind':'SINGLE'},'root':{'id':2,'op':'aggregate','step':'FINAL','input':{'id':3,'op':'remote','fragment':2}}},\
{'placement':'SOURCE','output':{'kind':'HASH','columns':[0]},'root':{'id':4,'op':'aggregate','step':'PARTIAL','keys':[0],'calls':[],'input':{'id':5,SCAN}} \
| f0 1x1 0+2 f1 > result; f0 1x1 1+2 e0:0+1 > takers0; f1 2x1 2+2 f2 final2 > one0; f1 2x1 3+2 e2:1+1 > takers2; f2 2x2 6+2 t0 partial4 > hash2\n\
3 4 | {'placement':'SINGLE','root':{'id':1,'op':'remote','fragment':1}},\
{'placement':'HASH','output':{'kind':'SINGLE'},'root':{'id':2,'op':'aggregate','step':'FINAL','input':{'id':3,'op':'remote','fragment':2}}},\
{'placement':'SOURCE','output':{'kind':'HASH','columns':[0]},'root':{'id':4,'op':'aggregate','step':'PARTIAL','keys':[0],'calls':[],'input':{'id':5,SCAN}} \
| f0 1x1 0+2 f1 > result; f0 1x1 1+2 e0:0+1 > takers0; f1 3x1 2+2 f2 final2 > one0; f1 3x1 3+2 e2:1+1 > takers2; f2 3x4 8+4 t0 partial4 > hash2\n\
2 2 | {'placement':'SINGLE','root':{'id':1,'op':'aggregate','step':'FINAL','input':{'id':2,'op':'remote','fragment':1}}},\
{'placement':'HASH','output':{'kind':'SINGLE'},'root':{'id':4,'op':'aggregate','step':'PARTIAL','keys':[],'calls':[],'input':{'id':5,'op':'join','kind':'INNER','on':[[0,0]],\
'left':{'id':6,'op':'remote','fragment':2},'right':{'id':7,'op':'remote','fragment':3}}}},\
{'placement':'SOURCE','output':{'kind':'HASH','columns':[0]},'root':{'id':8,SCAN},{'placement':'SOURCE','output':{'kind':'HASH','columns':[0]},'root':{'id':9,SCAN} \
| f0 1x1 0+2 f1 final1 > result; f0 1x1 1+2 e0:0+1 > takers0; f1 2x2 2+5 f2 probe5@3 partial4 > one0; f1 2x1 4+5 f3 > cell; \
f1 2x1 5+5 e2:1+2 > takers2; f1 2x1 6+5 e3:2+2 > takers3; f2 2x2 12+2 t0 > hash2; f3 2x2 16+2 t0 > hash3\n\
2 2 | {'placement':'SINGLE','root':{'id':1,'op':'join','kind':'LEFT','on':[[0,0]],'left':{'id':2,'op':'union','left':{'id':3,SCAN,\
'right':{'id':4,'op':'join','kind':'INNER','on':[[0,0]],'left':{'id':5,SCAN,'right':{'id':6,VALUES}},\
'right':{'id':7,'op':'union','left':{'id':8,VALUES,'right':{'id':9,'op':'filter','predicate':{'col':0},'input':{'id':10,SCAN}}}} \
| f0 1x1 0+7 sides probe1@4 > result; f0 1x1 1+7 t0 > side0; f0 1x1 2+7 t0 probe4@3 > side0; f0 1x1 3+7 rows > cell; \
f0 1x1 4+7 sides > cell; f0 1x1 5+7 rows > side4; f0 1x1 6+7 t0 filter9 > side4\n\
2 2 | {'placement':'SINGLE','root':{'id':1,'op':'join','kind':'INNER','on':[[0,0]],\
'left':{'id':2,'op':'join','kind':'INNER','on':[[0,0]],'left':{'id':3,SCAN,'right':{'id':4,'op':'join','kind':'INNER','on':[[0,0]],'left':{'id':5,VALUES,'right':{'id':6,SCAN}},\
'right':{'id':7,VALUES}} | f0 1x1 0+4 t0 probe2@1 probe1@3 > result; f0 1x1 1+4 rows probe4@2 > cell; f0 1x1 2+4 t0 > cell; f0 1x1 3+4 rows > cell\n\
3 2 | {'placement':'SINGLE','root':{'id':1,'op':'remote','fragment':1}},\
{'placement':'SOURCE','output':{'kind':'SINGLE'},'root':{'id':2,'op':'union','left':{'id':3,SCAN,'right':{'id':4,'op':'join','kind':'INNER','on':[[0,0]],\
'left':{'id':5,'op':'remote','fragment':2},'right':{'id':6,'op':'remote','fragment':3}}}},\
{'placement':'SOURCE','output':{'kind':'BROADCAST'},'root':{'id':7,SCAN},{'placement':'SOURCE','output':{'kind':'BROADCAST'},'root':{'id':8,SCAN} \
| f0 1x1 0+2 f1 > result; f0 1x1 1+2 e0:0+1 > takers0; f1 3x1 2+8 sides > one0; f1 3x2 3+8 t0 > side2; f1 3x2 5+8 f2 probe4@5 > side2; \
f1 3x1 7+8 f3 > cell; f1 3x1 8+8 e4:1+2 > takers4; f1 3x1 9+8 e5:2+2 > takers5; f2 3x2 26+2 t0 > all4; f3 3x2 32+2 t0 > all5\n\
2 2 | {'placement':'SINGLE','root':{'id':1,'op':'topn','step':'FINAL','input':{'id':2,'op':'remote','fragment':1}}},\
{'placement':'SOURCE','output':{'kind':'SINGLE'},'root':{'id':3,'op':'topn','step':'PARTIAL','count':9,'keys':[],'input':{'id':4,SCAN}} \
| f0 1x1 0+2 f1 topn1:9 > result; f0 1x1 1+2 e0:0+1 > takers0; f1 2x2 2+2 t0 topn3:9 > one0\n\
2 2 | {'placement':'SINGLE','root':{'id':1,'op':'limit','step':'FINAL','input':{'id':2,'op':'remote','fragment':1}}},\
{'placement':'SOURCE','output':{'kind':'SINGLE'},'root':{'id':3,'op':'limit','step':'PARTIAL','count':9,'input':{'id':4,SCAN}} \
| f0 1x1 0+2 f1 limit1:9 > result; f0 1x1 1+2 e0:0+1 > takers0; f1 2x2 2+2 t0 limit3:9 > one0\n\
2 2 | {'placement':'SINGLE','root':{'id':1,'op':'remote','fragment':1}},\
{'placement':'SOURCE','output':{'kind':'SINGLE'},'root':{'id':3,'op':'aggregate','step':'SINGLE','keys':[0],'calls':[],'input':{'id':4,SCAN}} \
| f0 1x1 0+2 f1 > result; f0 1x1 1+2 e0:0+1 > takers0; f1 2x1 2+1 t0 group3 > one0";

/// Three fragments. In two tasks with two drivers, the first has six drivers in each task: two that probe, two that build
/// and two that fetch.
pub const NUMBERED: &str = "\
{'placement':'HASH','root':{'id':1,'op':'join','kind':'INNER','on':[[0,0]],'left':{'id':2,'op':'remote','fragment':1},\
'right':{'id':3,'op':'join','kind':'INNER','on':[[0,0]],'left':{'id':4,'op':'remote','fragment':2},'right':{'id':5,SCAN}}},\
{'placement':'SOURCE','output':{'kind':'HASH','columns':[0]},'root':{'id':6,SCAN},\
{'placement':'SOURCE','output':{'kind':'HASH','columns':[0]},'root':{'id':7,SCAN}";
