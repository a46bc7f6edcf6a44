//! Exact values that were computed outside, by whole numbers without a bound.
use decimals::{Decimal, OutOfRange};

/// An operation, two numbers, each unscaled with its precision and scale, and the result, or none where it is out of
/// range. To scale takes a number, a precision and a scale.
const ROWS: &str = "scale -994 3 1 2 0 -99 2 0\n\
scale -25 3 1 2 0 -3 2 0\n\
scale -15 3 1 2 0 -2 2 0\n\
scale -5 3 1 2 0 -1 2 0\n\
scale -4 3 1 2 0 0 2 0\n\
scale 4 3 1 2 0 0 2 0\n\
scale 5 3 1 2 0 1 2 0\n\
scale 15 3 1 2 0 2 2 0\n\
scale 25 3 1 2 0 3 2 0\n\
scale 994 3 1 2 0 99 2 0\n\
* 9999999999999999999999999999999999999 37 12 -4055040946936446119 19 13 none\n\
scale 9346144524656089396930129037697945981 37 9 19 10 none\n\
scale 5874241192684838610078575757080485371 37 5 1 1 none\n\
* 2482470137981943493435755303426162529 38 9 -999999999999999999 18 5 none\n\
scale -61161309458151158193153998010946633 37 10 5 0 none\n\
scale 99 2 1 5 5 none\n\
scale -9999999999999999999999999999999999999 37 10 37 36 none\n\
scale 999999999999999999 18 4 19 8 none\n\
- 99 2 0 -99999999999999999999999999999999999999 38 13 none\n\
* -4716538439047968404 19 13 5525635108472971952965813206176118529 37 21 none\n\
- -99999999999999999999999999999999999999 38 6 0 37 29 none\n\
+ -58426262295951968599275550203361092167 38 15 0 18 17 none\n\
- -999999999999999999 18 10 -69565243937252970699408181717172280113 38 1 none\n\
* 9999999999999999999999999999999999999 37 25 -315254255544940474 18 8 none\n\
- -5 2 1 -99 2 1 94 3 1\n\
* -96 2 2 2 1 1 -192 3 3\n\
* -5 5 5 146 18 8 -730 23 13\n\
scale 83647036176 19 11 19 2 84 19 2\n\
- -406701536537 19 4 4361095433107313167 19 18 -40670158014795433107313167 34 18\n\
- -473277 19 6 -67954593650011250320420742641661868044 38 11 67954593650011250320420742594334168044 38 11\n\
scale 8715188320286409568460086294169555579 37 3 37 0 8715188320286409568460086294169556 37 0\n\
scale -75865662066 19 12 5 4 -759 5 4\n\
- 0 2 2 -500 19 5 500 20 5\n\
+ 90706539354358 38 19 -960996379459245432 18 11 -96099637945833836660645642 38 19\n\
- 99 2 1 9899508619780563994448197395060443789 37 28 -9899508520780563994448197395060443789 38 28\n\
- 0 1 0 -99 2 1 99 3 1\n\
- 67249870317922 18 18 65 2 0 -64999932750129682078 21 18\n\
- -131152 19 2 74332246195777580 18 7 -74332259310977580 25 7\n\
scale -5000000000000000 37 20 2 0 0 2 0\n\
+ -3 1 0 89958156857917745755774804904511352885 38 24 89958156857914745755774804904511352885 38 24\n\
+ -90808131444315688241142516498225299 38 36 85701210 38 25 -90808131444315679671021516498225299 38 36\n\
+ 97 2 0 -9537856747342768962555468704506822457 37 3 -9537856747342768962555468704506725457 38 3\n\
- -751948210600297983 18 14 -5000000000000000 19 11 4248051789399702017 23 14\n\
+ -7 1 1 -72494848 19 15 -700000072494848 20 15\n\
* 50000000000000 18 11 -5450 5 0 -272500000000000000 23 11\n\
+ -41436 5 4 77 2 1 35564 6 4\n\
* 0 1 1 -617377199418726769 18 2 0 19 3\n\
- 76201 5 0 -80276 5 3 76281276 9 3\n\
- -87569173039741883518957289830599515728 38 36 3 1 1 -87869173039741883518957289830599515728 38 36\n\
- 500000000 18 15 -40921 5 4 4092100500000000 19 15\n\
scale 3 19 16 2 2 0 2 2\n\
- 73892 5 3 999999999999999999 18 2 -9999999999999926098 20 3\n\
- -614430015572650920 19 0 -9999999999999999999 19 14 -61443001557255092000000000000001 34 14\n\
scale 5 1 0 1 0 5 1 0";

/// The first word, and what follows it.
fn word(line: &str) -> (&str, &str) {
    match line.split_once(' ') {
        Some(parts) => parts,
        None => (line, ""),
    }
}

fn small(line: &str) -> Option<(u8, &str)> {
    let (first, rest) = word(line);
    Some((first.parse::<u8>().ok()?, rest))
}

fn wide(line: &str) -> Option<(i128, &str)> {
    let (first, rest) = word(line);
    Some((first.parse::<i128>().ok()?, rest))
}

fn pair(line: &str) -> Option<(u8, u8, &str)> {
    let (p, rest) = small(line)?;
    let (s, rest) = small(rest)?;
    Some((p, s, rest))
}

fn decimal(line: &str) -> Option<(Decimal, &str)> {
    let (unscaled, rest) = wide(line)?;
    let (p, s, rest) = pair(rest)?;
    Some((Decimal::checked(unscaled, p, s)?, rest))
}

/// Whether the result is what the words want.
fn is(found: Result<Decimal, OutOfRange>, wanted: &str) -> bool {
    match found {
        Ok(d) => is_number(d, wanted),
        Err(OutOfRange) => wanted == "none",
    }
}

fn is_number(d: Decimal, wanted: &str) -> bool {
    match decimal(wanted) {
        Some((w, rest)) => d.unscaled == w.unscaled && d.p == w.p && d.s == w.s && rest == "",
        None => false,
    }
}

fn rescales(a: Decimal, line: &str) -> bool {
    match pair(line) {
        Some((p, s, wanted)) if 1 <= p && p <= 38 && s <= p => is(a.rescale(p, s), wanted),
        _ => false,
    }
}

fn multiplies(a: Decimal, b: Decimal, wanted: &str) -> bool {
    b.s <= 38 && a.s <= 38 - b.s && is(a.mul(b), wanted)
}

fn combines(name: &str, a: Decimal, b: Decimal, wanted: &str) -> bool {
    match name {
        "+" => is(a.add(b), wanted),
        "-" => is(a.sub(b), wanted),
        "*" => multiplies(a, b, wanted),
        _ => false,
    }
}

/// Whether the operation of a line gives what the line wants.
fn holds(line: &str) -> bool {
    let (name, rest) = word(line);
    match decimal(rest) {
        Some((a, rest)) if name == "scale" => rescales(a, rest),
        Some((a, rest)) => match decimal(rest) {
            Some((b, wanted)) => combines(name, a, b, wanted),
            None => false,
        },
        None => false,
    }
}

/// How many lines there are, up to the first that does not hold.
fn holding(lines: &str) -> u32 {
    let mut count = 0u32;
    for line in lines.lines() {
        if !holds(line) {
            return count;
        }
        count = count.saturating_add(1);
    }
    count
}

#[test]
fn results_are_exact(rt: HostRuntime) {
    assert!(rt; holding(ROWS) == 54);
}

fn opposite(unscaled: i128) -> Option<i128> {
    Some(Decimal::checked(unscaled, 2, 1)?.neg().unscaled)
}

#[test]
fn opposites(rt: HostRuntime) {
    assert!(rt; opposite(-99) == Some(99));
    assert!(rt; Decimal::checked(100, 2, 1).is_none());
}
