//! Of `feedback_queue`, whole sequences of calls, and the level of each work.
use feedback_queue::{Feedback, level_of};
use std::test::Fail;

/// Calls of one queue, and the turns of its levels after each: `offer WORK NAME`, or `take` with the work and the
/// name that it has to answer. A program outside computed them.
const CALLS: &str = "\
offer 0 10|0 0 0 0 0\n\
offer 60000000 2|0 0 0 0 0\n\
offer 60000000 8|0 0 0 0 0\n\
take 0 10|1 0 0 0 0\n\
offer 1000000 12|1 0 0 0 0\n\
offer 1000000000 4|1 0 0 0 0\n\
offer 999999 3|1 0 0 0 0\n\
take 1000000 12|1 1 0 0 0\n\
offer 999999 1|1 1 0 0 0\n\
offer 100000 10|1 1 0 0 0\n\
offer 30000000 0|1 1 0 0 0\n\
take 30000000 0|1 1 1 0 0\n\
offer 30000000 9|1 1 1 0 0\n\
take 60000000 2|1 1 1 1 0\n\
take 1000000000 4|1 1 1 1 1\n\
offer 1000000000 11|1 1 1 1 1\n\
offer 1000000000 13|1 1 1 1 1\n\
offer 60000010 2|1 1 1 1 1\n\
offer 1100000 12|1 1 1 1 1\n\
offer 60000000 7|1 1 1 1 1\n\
offer 1000000000 6|1 1 1 1 1\n\
offer 30000010 0|1 1 1 1 1\n\
offer 60000000 5|1 1 1 1 1\n\
take 100000 10|2 1 1 1 1\n\
offer 5100000 10|2 1 1 1 1\n\
offer 1000100000 4|2 1 1 1 1\n\
take 999999 3|3 1 1 1 1\n\
take 1100000 12|3 2 1 1 1\n\
offer 1099999 3|3 2 1 1 1\n\
offer 1100010 12|3 2 1 1 1\n\
take 999999 1|4 2 1 1 1\n\
offer 5999999 1|4 2 1 1 1\n\
take 1099999 3|4 3 1 1 1\n\
offer 1100009 3|4 3 1 1 1\n\
take 30000000 9|4 3 2 1 1\n\
offer 30100000 9|4 3 2 1 1\n\
take 1100009 3|4 4 2 1 1\n\
offer 1200009 3|4 4 2 1 1\n\
take 1100010 12|4 5 2 1 1\n\
take 30000010 0|4 5 3 1 1\n\
offer 6100010 12|4 5 3 1 1\n\
take 60000000 8|4 5 3 2 1\n\
offer 60100000 8|4 5 3 2 1\n\
take 1200009 3|4 6 3 2 1\n\
take 5100000 10|4 7 3 2 1\n\
take 30100000 9|4 7 4 2 1\n\
take 5999999 1|4 8 4 2 1\n\
offer 30000020 0|4 8 4 2 1\n\
offer 30200000 9|4 8 4 2 1\n\
take 6100010 12|4 9 4 2 1\n\
offer 1300009 3|4 9 4 2 1\n\
offer 6000009 1|4 9 4 2 1\n\
offer 5100010 10|4 9 4 2 1\n\
take 30000020 0|4 9 5 2 1\n\
take 60000000 7|4 9 5 3 1\n\
offer 6200010 12|4 9 5 3 1\n\
offer 60100000 7|4 9 5 3 1\n\
offer 35000020 0|4 9 5 3 1\n\
take 1000000000 11|4 9 5 3 2\n\
offer 1000100000 11|4 9 5 3 2\n\
take 1300009 3|4 10 5 3 2\n\
offer 1300019 3|4 10 5 3 2\n\
take 1300019 3|4 11 5 3 2\n\
offer 1400019 3|4 11 5 3 2\n\
take 30200000 9|4 11 6 3 2\n\
take 1400019 3|4 12 6 3 2\n\
take 5100010 10|4 13 6 3 2\n\
take 35000020 0|4 13 7 3 2\n\
offer 35100020 0|4 13 7 3 2\n\
offer 30200010 9|4 13 7 3 2\n\
take 60000000 5|4 13 7 4 2\n\
offer 60100000 5|4 13 7 4 2\n\
take 6000009 1|4 14 7 4 2\n\
offer 10100010 10|4 14 7 4 2\n\
take 6200010 12|4 15 7 4 2\n\
offer 11000009 1|4 15 7 4 2\n\
offer 6400019 3|4 15 7 4 2\n\
offer 6300010 12|4 15 7 4 2\n\
take 10100010 10|4 15 8 4 2\n\
take 6300010 12|4 16 8 4 2\n\
offer 6400010 12|4 16 8 4 2\n\
offer 15100010 10|4 16 8 4 2\n\
take 6400010 12|4 17 8 4 2\n\
take 11000009 1|4 17 9 4 2\n\
take 60000010 2|4 17 9 5 2\n\
offer 11100009 1|4 17 9 5 2\n\
offer 65000010 2|4 17 9 5 2\n\
take 1000000000 13|4 17 9 5 3\n\
take 6400019 3|4 18 9 5 3\n\
take 11100009 1|4 18 10 5 3\n\
take 15100010 10|4 18 11 5 3\n\
take 60100000 8|4 18 11 6 3\n\
offer 11400019 3|4 18 11 6 3\n\
offer 11200009 1|4 18 11 6 3\n\
offer 20100010 10|4 18 11 6 3\n\
offer 60200000 8|4 18 11 6 3\n\
offer 1000100000 13|4 18 11 6 3\n\
offer 6400020 12|4 22 11 6 3\n\
take 6400020 12|4 23 11 6 3\n\
offer 11400020 12|4 23 11 6 3\n\
take 11200009 1|4 23 12 6 3\n\
offer 11300009 1|4 23 12 6 3\n\
take 11300009 1|4 23 13 6 3\n\
take 60100000 7|4 23 13 7 3\n\
offer 11300019 1|4 23 13 7 3\n\
take 1000000000 6|4 23 13 7 4\n\
offer 1005000000 6|4 23 13 7 4\n\
offer 60200000 7|4 23 13 7 4\n\
take 11300019 1|4 23 14 7 4\n\
take 11400019 3|4 23 15 7 4\n\
offer 11400029 3|4 23 15 7 4\n\
take 60100000 5|4 23 15 8 4\n\
offer 16300019 1|4 23 15 8 4\n\
take 11400020 12|4 23 16 8 4\n\
take 11400029 3|4 23 17 8 4\n\
offer 60100010 5|4 23 17 8 4\n\
offer 11400030 12|4 23 17 8 4\n\
offer 11400039 3|4 23 17 8 4\n\
take 60100010 5|4 23 17 9 4\n\
offer 60200010 5|4 23 17 9 4\n\
take 1000100000 4|4 23 17 9 5\n\
take 11400030 12|4 23 18 9 5\n\
offer 16400030 12|4 23 18 9 5\n\
offer 1005100000 4|4 23 18 9 5\n\
take 11400039 3|4 23 19 9 5\n\
take 60200000 8|4 23 19 10 5\n\
take 16300019 1|4 23 20 10 5\n\
offer 11500039 3|4 23 20 10 5\n\
offer 21300019 1|4 23 20 10 5\n\
offer 60200010 8|4 23 20 10 5\n\
take 11500039 3|4 23 21 10 5\n\
offer 16500039 3|4 23 21 10 5\n\
take 60200000 7|4 23 21 11 5\n\
offer 60200010 7|4 23 21 11 5\n\
take 1000100000 11|4 23 21 11 6\n\
offer 1000200000 11|4 23 21 11 6\n\
take 16400030 12|4 23 22 11 6\n\
offer 21400030 12|4 23 22 11 6\n\
take 16500039 3|4 23 23 11 6\n\
take 60200010 5|4 23 23 12 6\n\
take 20100010 10|4 23 24 12 6\n\
offer 16500049 3|4 23 24 12 6\n\
offer 60300010 5|4 23 24 12 6\n\
offer 25100010 10|4 23 24 12 6\n\
take 16500049 3|4 23 25 12 6\n\
offer 16600049 3|4 23 25 12 6\n\
take 60200010 8|4 23 25 13 6\n\
offer 60300010 8|4 23 25 13 6\n\
take 1000100000 13|4 23 25 13 7\n\
take 16600049 3|4 23 26 13 7\n\
take 21300019 1|4 23 27 13 7\n\
take 60200010 7|4 23 27 14 7\n\
offer 60300010 7|4 23 27 14 7\n\
offer 16600059 3|4 23 27 14 7\n\
offer 21400019 1|4 23 27 14 7\n\
offer 1000200000 13|4 23 27 14 7\n\
take 16600059 3|4 23 28 14 7\n\
take 21400019 1|4 23 29 14 7\n\
offer 16600069 3|4 23 29 14 7\n\
take 60300010 5|4 23 29 15 7";

/// Two who are offered again after each turn, with 10 units more: five takes give 1, 2, 1, 1, 2.
const FIVE_TAKES: &str = "\
offer 0 1|0 0 0 0 0\n\
offer 2000000 2|0 0 0 0 0\n\
take 0 1|1 0 0 0 0\n\
offer 10 1|1 0 0 0 0\n\
take 2000000 2|1 1 0 0 0\n\
offer 2000010 2|1 1 0 0 0\n\
take 10 1|2 1 0 0 0\n\
offer 20 1|2 1 0 0 0\n\
take 20 1|3 1 0 0 0\n\
offer 30 1|3 1 0 0 0\n\
take 2000010 2|3 2 0 0 0";

/// Of those with the same work who came first goes first, and none is taken from an empty queue.
const TIES: &str = "\
offer 5 1|0 0 0 0 0\n\
offer 5 2|0 0 0 0 0\n\
offer 4 3|0 0 0 0 0\n\
take 4 3|1 0 0 0 0\n\
take 5 1|2 0 0 0 0\n\
take 5 2|3 0 0 0 0\n\
none 0 0|3 0 0 0 0";

/// The first and the last work of each level.
const LEVELS: &str =
    "0 0 999999;1 1000000 9999999;2 10000000 59999999;3 60000000 299999999;4 300000000 18446744073709551615";

fn number(text: &str) -> u64 {
    match text.parse::<u64>() {
        Ok(number) => number,
        Err(_) => 7_777_777,
    }
}

/// Whether a call answers so.
fn is_answered(queue: &mut Feedback<u64>, word: &str, work: u64, name: u64) -> bool {
    match word {
        "offer" => queue.offer(work, name).is_ok(),
        "take" => queue.take() == Some((work, name)),
        _ => queue.take().is_none(),
    }
}

fn is_call(queue: &mut Feedback<u64>, call: &str) -> bool {
    match call.split_once(' ') {
        Some((word, numbers)) => match numbers.split_once(' ') {
            Some((work, name)) => is_answered(queue, word, number(work), number(name)),
            None => false,
        },
        None => false,
    }
}

/// Whether the levels had these turns.
fn are_turns(queue: &Feedback<u64>, turns: &str) -> bool {
    let mut level: u8 = 0;
    for turn in turns.split(' ') {
        if level > 4 || queue.turns(level) != number(turn) {
            return false;
        }
        level += 1;
    }
    level == 5
}

fn is_row(queue: &mut Feedback<u64>, row: &str) -> bool {
    match row.split_once('|') {
        Some((call, turns)) => is_call(queue, call) && are_turns(queue, turns),
        None => false,
    }
}

/// Whether each row is answered so.
fn are_answered(queue: &mut Feedback<u64>, rows: &str) -> bool {
    for row in rows.lines() {
        if !is_row(queue, row) {
            return false;
        }
    }
    true
}

#[test]
fn turns_go_to_the_least_weight_and_the_least_work(rt: HostRuntime) -> Result<(), Fail> {
    for rows in [CALLS, FIVE_TAKES, TIES] {
        assert!(rt; are_answered(&mut Feedback::new(rt.alloc()), rows));
    }
    Ok(())
}

/// Whether both ends of a level lie in it.
fn is_level(line: &str) -> bool {
    match line.split_once(' ') {
        Some((level, ends)) => match ends.split_once(' ') {
            Some((first, last)) => {
                u64::from(level_of(number(first))) == number(level)
                    && u64::from(level_of(number(last))) == number(level)
            }
            None => false,
        },
        None => false,
    }
}

#[test]
fn work_has_its_level(rt: HostRuntime) -> Result<(), Fail> {
    for line in LEVELS.split(';') {
        assert!(rt; is_level(line));
    }
    Ok(())
}
