//! The tables of the cases: a line each, with a `|` between its parts. A literal is its type and its
//! text, or NULL; what is wanted is a text, NULL, the name of a failure, or no type.
use CallName::{
    Add, AddDays, Concat, Day, DaysBetween, Divide, Equal, GreaterEqual, IsDistinct, IsNull,
    Length, Less, Like, Modulo, Month, Multiply, Neg, Not, Subtract, Unequal, Year,
};
use sql_exprs::CallName;

/// Calls of two arguments.
pub const PAIRS: [CallName; 14] = [
    Add,
    Subtract,
    Multiply,
    Divide,
    Modulo,
    Less,
    Equal,
    GreaterEqual,
    Unequal,
    IsDistinct,
    Concat,
    AddDays,
    DaysBetween,
    Like,
];

/// For each of these, a `#` between them: the two, and what is wanted.
pub const OF_PAIRS: &str = "bigint 9223372036854775806|bigint 1|9223372036854775807\n\
bigint 9223372036854775807|bigint 1|OutOfRange\n\
decimal(2,1) 9.9|decimal(2,1) 0.1|10.0\n\
decimal(3,2) 1.25|decimal(2,0) 10|11.25\n\
decimal(38,0) 99999999999999999999999999999999999999|decimal(1,0) 1|OutOfRange\n\
decimal(38,0) 1|decimal(38,38) 0|OutOfRange\n\
bigint 1|decimal(2,1) 1|no type\n\
#bigint -9223372036854775808|bigint 1|OutOfRange\n\
decimal(1,0) 1|decimal(4,2) 0.05|0.95\n\
#bigint 4294967296|bigint 2147483648|OutOfRange\n\
bigint -4294967296|bigint 2147483648|-9223372036854775808\n\
decimal(12,2) 100.00|decimal(5,2) 0.95|95.0000\n\
decimal(38,0) 99999999999999999999999999999999999999|decimal(1,0) 2|OutOfRange\n\
decimal(38,38) 0|decimal(1,1) 0|no type\n\
#bigint 7|bigint -2|-3\n\
bigint -7|bigint 2|-3\n\
bigint -9223372036854775808|bigint -1|OutOfRange\n\
bigint 1|bigint 0|DivisionByZero\n\
bigint NULL|bigint 0|NULL\n\
#bigint 7|bigint -3|1\n\
bigint -7|bigint 3|-1\n\
bigint -9223372036854775808|bigint -1|0\n\
bigint 5|bigint 0|DivisionByZero\n\
#bigint 1|bigint 2|true\n\
varchar Z|varchar a|true\n\
boolean false|boolean true|true\n\
#bigint NULL|bigint 1|NULL\n\
decimal(3,1) 1.0|decimal(4,1) 1.0|no type\n\
#date 2024-02-29|date 2024-03-01|false\n\
#varchar a|varchar A|true\n\
#bigint NULL|bigint NULL|false\n\
bigint 1|bigint NULL|true\n\
varchar a|varchar a|false\n\
varchar a|varchar b|true\n\
#varchar a|varchar é|aé\n\
varchar NULL|varchar é|NULL\n\
#date 2024-02-28|bigint 2|2024-03-01\n\
date 9999-12-31|bigint 1|OutOfRange\n\
date 0001-01-01|bigint -1|OutOfRange\n\
date 2023-12-31|bigint -365|2022-12-31\n\
date 1970-01-01|bigint 9223372036854775807|OutOfRange\n\
#date 2024-01-01|date 2025-01-01|366\n\
date 2025-01-01|date 2024-01-01|-366\n\
#varchar NULL|varchar %|NULL";

/// Calls of one argument.
pub const SINGLES: [CallName; 7] = [Neg, IsNull, Not, Length, Year, Month, Day];

/// For each of these: it, and what is wanted.
pub const OF_SINGLES: &str = "bigint 5|-5\n\
bigint -9223372036854775808|OutOfRange\n\
decimal(3,2) -1.25|1.25\n\
#bigint NULL|true\n\
varchar |false\n\
#boolean true|false\n\
boolean NULL|NULL\n\
#varchar 日本|2\n\
varchar |0\n\
bigint 1|no type\n\
#date 0001-01-01|1\n\
date NULL|NULL\n\
#date 9999-12-31|12\n\
#date 2024-02-29|29";

/// What is cast, the type that it is cast to, and what is wanted.
pub const CASTS: &str = "bigint 12|decimal(4,2)|12.00\n\
bigint 100|decimal(4,2)|OutOfRange\n\
bigint -9223372036854775808|decimal(19,0)|-9223372036854775808\n\
decimal(3,1) 2.5|bigint|3\n\
decimal(3,1) -2.5|bigint|-3\n\
decimal(3,1) 2.4|bigint|2\n\
decimal(20,1) 9223372036854775807.4|bigint|9223372036854775807\n\
decimal(20,1) 9223372036854775807.5|bigint|OutOfRange\n\
decimal(38,0) 99999999999999999999|bigint|OutOfRange\n\
decimal(4,3) 0.125|decimal(3,2)|0.13\n\
decimal(4,3) -0.125|decimal(3,2)|-0.13\n\
decimal(4,3) 0.124|decimal(3,2)|0.12\n\
decimal(3,2) 9.99|decimal(2,1)|OutOfRange\n\
decimal(2,1) 1.5|decimal(3,2)|1.50\n\
varchar 12x|bigint|BadCast\n\
varchar 9223372036854775808|bigint|BadCast\n\
varchar +5|bigint|5\n\
varchar |bigint|BadCast\n\
varchar  1|bigint|BadCast\n\
varchar 1.5|decimal(2,1)|1.5\n\
varchar 1.55|decimal(3,1)|BadCast\n\
varchar TRUE|boolean|true\n\
varchar yes|boolean|BadCast\n\
varchar 2024-02-29|date|2024-02-29\n\
varchar 2023-02-29|date|BadCast\n\
bigint -5|varchar|-5\n\
decimal(3,2) -0.05|varchar|-0.05\n\
boolean true|varchar|true\n\
date 0001-01-01|varchar|0001-01-01\n\
date 2024-02-29|bigint|no type\n\
boolean true|bigint|no type\n\
bigint NULL|decimal(1,0)|NULL";

/// A text, a pattern, and whether the pattern matches the text.
pub const LIKES: &str = "||true\n\
|%|true\n\
|_|false\n\
%|a%|false\n\
a|_|true\n\
a|%a%a%|false\n\
aaa|%a%a%|true\n\
aaa|___|true\n\
aaa|__|false\n\
ab|_b|true\n\
ab|a|false\n\
ab|A%|false\n\
abab|%ab%|true\n\
abab|%abab|true\n\
abab|a%b|true\n\
abc|%b|false\n\
abc|%b%|true\n\
abc|a_c|true\n\
aé|a_|true\n\
aé|_é|true\n\
aé|__|true\n\
aé|___|false\n\
é|_|true\n\
é|__|false\n\
é|%é|true\n\
日本|__|true\n\
日本|日%|true\n\
日本|______|false\n\
a\\b|a\\b|true\n\
a\\b|a\\%|true";
