ghost use Rattle.std.specs.Prelude.{◌≡◌, [], ◌∷◌, ◌++◌, ◌≤◌, IfOk};
ghost use Rattle.serde_json.specs.View.{view};
ghost use Rattle.json_paths.specs.declared.step.Step.TheVariants as step;
ghost use Rattle.plan_grammar.specs.Grammar.{element_of, depth_of};
ghost use Rattle.plan_grammar.specs.Spots.{spot, spot_of};

use crate::grammar::{depth_of, element_of};
use crate::kind::Kind;
use crate::tables::Part;
use json_paths::{Step, then};
use serde_json::Value;
use sql_values::Memory;
use std::alloc::Global;

/// A place of the document: the way to it, the nearest object around it, what the grammar asks for
/// there, how many nodes or forms stand above one another, and the value.
#[derive(Drop)]
pub struct Place<'a> {
    pub path: Vec<Step>,
    pub owner: &'a Value,
    pub kind: Kind,
    pub level: u32,
    pub value: &'a Value,
}

impl<'a> Place<'a> {
    pub fn copy(&self, alloc: Global) -> Result<Place<'a>, Memory>
        ensures { IfOk result (λ p. spot_of p ≡ spot_of self.now) }
    {
        Ok(Place {
            path: Vec::from_slice(alloc, self.path.as_slice())?,
            owner: self.owner,
            kind: self.kind,
            level: self.level,
            value: self.value,
        })
    }

    /// The place of the entry at an index of this list.
    pub fn entry(&self, alloc: Global, index: usize, entry: &'a Value) -> Result<Place<'a>, Memory>
        requires { self.now.level ≤ 1000 }
        ensures spot { IfOk result (λ p. spot_of p ≡ spot (view entry.now)
            (self.now.path.items ++ step.Index index ∷ []) (view self.now.owner.now)
            (element_of self.now.kind index) (depth_of (element_of self.now.kind index) self.now.level)) }
    {
        let kind = element_of(self.kind, index);
        Ok(Place {
            path: then(alloc, self.path.as_slice(), Step::Index(index))?,
            owner: self.owner,
            kind,
            level: depth_of(kind, self.level),
            value: entry,
        })
    }

    /// The place of what stands under a key of this object.
    pub fn member(&self, alloc: Global, part: Part, member: &'a Value) -> Result<Place<'a>, Memory>
        requires { self.now.level ≤ 1000 }
        ensures spot { IfOk result (λ p. spot_of p ≡ spot (view member.now)
            (self.now.path.items ++ step.Key part.key ∷ []) (view self.now.value.now)
            part.kind (depth_of part.kind self.now.level)) }
    {
        Ok(Place {
            path: then(alloc, self.path.as_slice(), Step::Key(part.key))?,
            owner: self.value,
            kind: part.kind,
            level: depth_of(part.kind, self.level),
            value: member,
        })
    }
}
