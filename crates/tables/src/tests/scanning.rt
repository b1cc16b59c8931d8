//! The terms of a register: all of them, from a start on, and below it, and the postings of neighbouring ones, which one call reads.

/// Terms as words of index 0, put in the order of their bytes, and another term in another database, register and index. The
/// last is the greatest character, in UTF-8 `f4 8f bf bf`.
pub static TERMS: &str = "\
do make_tables
do database_put Other 0
do key_change 0:w <aa> 1 - 1.1
do database_put Default 0
do key_change 0:w <%> 1 - 1.1
do key_change 0:w <'> 1 - 1.1
do key_change 0:w <a> 1 - 1.1
do key_change 0:w <a\0> 1 - 1.1
do key_change 0:w <a\0b> 1 - 1.1
do key_change 0:w <ab> 1 - 1.1
do key_change 0:w <b> 1 - 1.1
do key_change 0:w <caf\u{e9}> 1 - 1.1
do key_change 0:w <\u{10ffff}> 1 - 1.1
do key_change 0:p <aa> 1 - 1.1
do key_change 1:w <aa> 1 - 1.1";

pub static TABLES: &str = "\
with terms
# All terms, also where more are asked for.
terms_of 0:w -> % 1,' 1,a 1,a\0 1,a\0b 1,ab 1,b 1,caf\u{e9} 1,\u{10ffff} 1,
terms_from 0:w <> 9 -> % 1,' 1,a 1,a\0 1,a\0b 1,ab 1,b 1,caf\u{e9} 1,\u{10ffff} 1,
terms_from 0:w <> 100 -> % 1,' 1,a 1,a\0 1,a\0b 1,ab 1,b 1,caf\u{e9} 1,\u{10ffff} 1,
terms_from 0:w <> 18446744073709551615 -> \
% 1,' 1,a 1,a\0 1,a\0b 1,ab 1,b 1,caf\u{e9} 1,\u{10ffff} 1,
terms_before 0:w <\u{10ffff}\0> 9 -> \
% 1,' 1,a 1,a\0 1,a\0b 1,ab 1,b 1,caf\u{e9} 1,\u{10ffff} 1,
terms_before 0:w <\u{10ffff}\0> 100 -> \
% 1,' 1,a 1,a\0 1,a\0b 1,ab 1,b 1,caf\u{e9} 1,\u{10ffff} 1,
# None.
terms_from 0:w <> 0 ->
terms_before 0:w <b> 0 ->
terms_from 0:w <\u{10ffff}\0> 1 ->
terms_before 0:w <> 5 ->
terms_before 0:w <%> 5 ->
# The start is a term.
terms_from 0:w <a> 1 -> a 1,
terms_from 0:w <a> 3 -> a 1,a\0 1,a\0b 1,
terms_before 0:w <a> 1 -> ' 1,
terms_before 0:w <a> 3 -> % 1,' 1,
terms_before 0:w <ab> 3 -> a 1,a\0 1,a\0b 1,
terms_from 0:w <\u{10ffff}> 2 -> \u{10ffff} 1,
terms_before 0:w <\u{10ffff}> 2 -> b 1,caf\u{e9} 1,
# The start stands between terms.
terms_from 0:w <a\0a> 2 -> a\0b 1,ab 1,
terms_before 0:w <a\0a> 2 -> a 1,a\0 1,
terms_from 0:w <aa> 1 -> ab 1,
terms_before 0:w <aa> 1 -> a\0b 1,
terms_from 0:w <caf\u{ff}> 1 -> \u{10ffff} 1,
terms_before 0:w <cafe> 1 -> b 1,
terms_from 0:w <A> 1 -> a 1,
# It holds what SQL writes with.
terms_from 0:w <'> 1 -> ' 1,
terms_from 0:w <%%> 1 -> ' 1,
terms_before 0:w <''> 2 -> % 1,' 1,
# Each has its list.
key_list 0:w <%> -> 1:1.1,
key_list 0:w <'> -> 1:1.1,
key_list 0:w <a> -> 1:1.1,
key_list 0:w <a\0> -> 1:1.1,
key_list 0:w <a\0b> -> 1:1.1,
key_list 0:w <ab> -> 1:1.1,
key_list 0:w <b> -> 1:1.1,
key_list 0:w <caf\u{e9}> -> 1:1.1,
key_list 0:w <\u{10ffff}> -> 1:1.1,

# A term has the number of its records.
with terms
do key_change 0:w <ab> 5 - 1.1,1.2,2.1
do key_change 0:w <ab> 3 - 1.1,1.2,2.1
do key_change 0:w <ab> 999999999 - 1.1,1.2,2.1
terms_from 0:w <ab> 1 -> ab 4,
terms_before 0:w <b> 1 -> ab 4,
terms_of 0:w -> % 1,' 1,a 1,a\0 1,a\0b 1,ab 4,b 1,caf\u{e9} 1,\u{10ffff} 1,
totals 0:w -> 9 18

# A term without postings is gone.
with terms
do key_change 0:w <a> 1 1.1 -
do key_change 0:w <a\0b> 1 1.1 -
do key_change 0:w <\u{10ffff}> 1 1.1 -
terms_of 0:w -> % 1,' 1,a\0 1,ab 1,b 1,caf\u{e9} 1,
terms_from 0:w <a> 2 -> a\0 1,ab 1,
terms_before 0:w <ab> 2 -> ' 1,a\0 1,
terms_from 0:w <caf\u{e9}> 2 -> caf\u{e9} 1,
totals 0:w -> 6 6";

/// Words of index 0, and one more in another database, register and index. The records of `a` lie in three blocks. Each call
/// has the number of rows of `blocks` that its postings stand in where tables are packed.
pub static NEIGHBOURS: &str = "\
do make_tables
do database_put Other 0
do key_change 0:w <aa> 9 - 1.1
do database_put Default 0
do key_change 0:p <aa> 9 - 1.1
do key_change 1:w <aa> 9 - 1.1
do key_change 0:w <a> 1 - 1.1
do key_change 0:w <a> 300 - 1.1
do key_change 0:w <a> 600 - 1.1
do key_change 0:w <a\0> 7 - 1.1
do key_change 0:w <ab> 2 - 1.1
do key_change 0:w <b> 256 - 1.1
do key_change 0:w <b> 257 - 1.1
do key_change 0:w <caf\u{e9}> 1 - 1.1
# A term stands at each end.
postings_between 0:w <a> <b> 6 -> 1:1.1,300:1.1,600:1.1,7:1.1,2:1.1,256:1.1,257:1.1,
postings_between 0:w <a\0> <ab> 2 -> 7:1.1,2:1.1,
postings_between 0:w <a> <a> 3 -> 1:1.1,300:1.1,600:1.1,
postings_between 0:w <caf\u{e9}> <caf\u{e9}> 1 -> 1:1.1,
# The ends stand between terms, and before and behind all of them.
postings_between 0:w <A> <a\0a> 4 -> 1:1.1,300:1.1,600:1.1,7:1.1,
postings_between 0:w <aa> <az> 1 -> 2:1.1,
postings_between 0:w <> <\u{10ffff}> 7 -> 1:1.1,300:1.1,600:1.1,7:1.1,2:1.1,256:1.1,257:1.1,1:1.1,
# No term stands there.
postings_between 0:w <a\0a> <aa> 0 ->
postings_between 0:w <d> <e> 0 ->
postings_between 0:w <> <> 0 ->
# The last one is below the first.
postings_between 0:w <b> <a> 0 ->";
