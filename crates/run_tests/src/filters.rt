//! Dynamic filters: how many rows they let through, as runs report it.

use crate::answers::first_wrong_with_words;
use std::test::Fail;

/// Two that are waited for, one that is not, a right side without rows, several of one scan by ascending id, and the sides
/// of the join in fragments of four tasks.
const COUNTED: &str = "\
--plan p --workers 1 --counts yes t=t u=u | | | | | {'version':1,'output':['a','b'],'tables':[{'name':'t','columns':[{'name':'k','type':'bigint'}]},{'name':'u','columns':[{'name':'k','type':'bigint'}]}],'fragments':[{'id':0,'placement':'SINGLE','root':{'id':1,'op':'join','kind':'INNER','on':[[0,0]],'left':{'id':2,'op':'scan','table':'t','columns':['k']},'right':{'id':3,'op':'scan','table':'u','columns':['k']},'filters':[{'id':1,'key':0,'scan':2,'column':0,'wait':true}]}}]} | k~0~1~2~3~4~5~6~7~8~9~;k~3~7~3~ | 0|a,b~3,3~3,3~7,7~|filter 1 passed 2~\n\
--plan p --workers 1 --counts yes t=t u=u | | | $k | 'a','b','c','d' | {'id':1,'op':'join','kind':'INNER','on':[[0,0]],'left':@t,'right':@u,'filters':[{'id':1,'key':0,'scan':9,'column':0,'wait':true}]} | k,x~0,a~3,b~5,c~7,d~\\N,e~;k,y~3,p~7,q~3,r~\\N,s~ | 0|a,b,c,d~3,b,3,p~3,b,3,r~7,d,7,q~|filter 1 passed 2~\n\
--plan p --workers 1 --counts yes t=t u=u | | | $k | 'a','b','c','d' | {'id':1,'op':'join','kind':'INNER','on':[[0,0]],'left':@t,'right':@u,'filters':[{'id':1,'key':0,'scan':9,'column':0,'wait':false}]} | k,x~0,a~3,b~5,c~7,d~\\N,e~;k,y~3,p~7,q~3,r~\\N,s~ | 0|a,b,c,d~3,b,3,p~3,b,3,r~7,d,7,q~|\n\
--plan p --workers 1 --counts yes t=t u=u | | | $k | 'a','b','c','d' | {'id':1,'op':'join','kind':'INNER','on':[[0,0]],'left':@t,'right':@u,'filters':[{'id':1,'key':0,'scan':9,'column':0,'wait':true}]} | k,x~0,a~3,b~;k,y~ | 0|a,b,c,d~|filter 1 passed 0~\n\
--plan p --workers 1 --counts yes t=t u=u | | | $k | 'a','b','c','d' | {'id':1,'op':'project','columns':[{'col':0},{'col':3},{'col':4},{'col':5}],'input':{'id':2,'op':'join','kind':'INNER','on':[[0,0],[1,1]],'left':{'id':3,'op':'join','kind':'INNER','on':[[0,0]],'left':@t,'right':@u,'filters':[{'id':9,'key':0,'scan':9,'column':0,'wait':true}]},'right':@v,'filters':[{'id':8,'key':1,'scan':9,'column':1,'wait':true},{'id':7,'key':0,'scan':9,'column':0,'wait':false}]}} | k,x~1,a~2,b~4,c~;k,y~2,p~1,q~2,r~3,s~ | 0|a,b,c,d~1,q,1,a~2,p,2,b~2,r,2,b~|filter 8 passed 3~filter 9 passed 2~\n\
--plan p --workers 4 --counts yes --tasks 4 t=t u=u | | | | | {'version':1,'output':['k','x','l','y'],'tables':[$k],'fragments':[{'id':0,'placement':'SINGLE','root':{'id':5,'op':'sort','keys':[{'column':0,'order':'ASC'},{'column':3,'order':'ASC'}],'input':{'id':1,'op':'remote','fragment':1}}},{'id':1,'placement':'HASH','output':{'kind':'SINGLE'},'root':{'id':2,'op':'join','kind':'INNER','on':[[0,0]],'left':{'id':3,'op':'remote','fragment':2},'right':{'id':4,'op':'remote','fragment':3},'filters':[{'id':1,'key':0,'scan':9,'column':0,'wait':true}]}},{'id':2,'placement':'SOURCE','output':{'kind':'HASH','columns':[0]},'root':@t},{'id':3,'placement':'SOURCE','output':{'kind':'HASH','columns':[0]},'root':@u}]} | k,x~0,a~3,b~7,c~\\N,d~9,e~;k,y~3,p~7,q~3,r~ | 0|k,x,l,y~3,b,3,p~3,b,3,r~7,c,7,q~|filter 1 passed 2~";

#[test]
fn filters_count_what_they_let_through(rt: HostRuntime) -> Result<(), Fail> {
    assert_eq!(rt; first_wrong_with_words(&rt, COUNTED)?, "");
    Ok(())
}
