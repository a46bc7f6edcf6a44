//! Runs of a demo, which read no file.

use crate::answers::{Given, is_told};
use std::random::RandomSource;
use std::sync::Wait;
use std::test::Fail;
use std::thread::Threads;

/// Arguments of a demo under several shapes.
const SHAPES: &str = "\
--demo 0
--demo 0 --workers 4 --tasks 3 --page 100
--demo 0 --workers 1 --tasks 1
--demo=0 --workers=1 --tasks=1 --replay 5
--workers 1 --tasks 1 --page 100 --demo 0
--tasks=1 --demo 0 --page 100 --replay 5 --workers=1 --
--demo 0 --workers 1 --tasks 3
--demo=0 --workers=1 --tasks=3 --replay 5
--workers 1 --tasks 3 --page 100 --demo 0
--tasks=3 --demo 0 --page 100 --replay 5 --workers=1 --
--demo 0 --workers 2 --tasks 1
--demo=0 --workers=2 --tasks=1 --replay 5
--workers 2 --tasks 1 --page 100 --demo 0
--tasks=1 --demo 0 --page 100 --replay 5 --workers=2 --
--demo 0 --workers 2 --tasks 3
--demo=0 --workers=2 --tasks=3 --replay 5
--workers 2 --tasks 3 --page 100 --demo 0
--tasks=3 --demo 0 --page 100 --replay 5 --workers=2 --
--demo 0 --workers 8 --tasks 1
--demo=0 --workers=8 --tasks=1 --replay 5
--workers 8 --tasks 1 --page 100 --demo 0
--tasks=1 --demo 0 --page 100 --replay 5 --workers=8 --
--demo 0 --workers 8 --tasks 3
--demo=0 --workers=8 --tasks=3 --replay 5
--workers 8 --tasks 3 --page 100 --demo 0
--tasks=3 --demo 0 --page 100 --replay 5 --workers=8 --";

/// What each of them answers.
const TOLD: &str = "0|region,orders,amount~\
east,22500,101025.00~north,22500,100800.00~south,22500,101250.00~west,22500,101475.00~|";

/// Arguments of demos that a larger number makes.
const OTHERS: &str = "\
--demo 250
--demo 18446744073709551250 --tasks 3 --page 100 --replay 5
--counts yes --demo 1250";

/// What each of these answers: the orders of a customer come 250 places later.
const MOVED: &str = "0|region,orders,amount~\
east,22500,107775.00~north,22500,107550.00~south,22500,107000.00~west,22500,107225.00~|";

/// The first of these arguments that a run answers otherwise, if any. Its first read of a file would fail.
fn first_otherwise<'s, R: Threads + Wait + Sync + RandomSource + AllocGlobal>(
    rt: &R,
    shapes: &'s str,
    told: &str,
) -> Result<&'s str, Fail> {
    for words in shapes.lines() {
        let given = Given {
            words,
            plan: "",
            rows: "",
            read: 1,
            write: 0,
        };
        if !is_told(rt, &given, told)? {
            return Ok(words);
        }
    }
    Ok("")
}

#[test]
fn a_demo_answers_alike_under_each_shape(rt: HostRuntime) -> Result<(), Fail> {
    assert_eq!(rt; first_otherwise(&rt, SHAPES, TOLD)?, "");
    assert_eq!(rt; first_otherwise(&rt, OTHERS, MOVED)?, "");
    Ok(())
}
