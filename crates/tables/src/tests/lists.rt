//! Lists of postings that change: of one key in several records, and of the same keys in two databases.

pub static TABLES: &str = "\
# A list grows by records that come in no order, then changes, and at last is empty and there again.
# Another database has the same key.
with made default filled
do database_put Other 0
do key_change 0:w <whale> 255 - 1.1
key_list 0:w <whale> -> 255:1.1,
do key_change 0:w <whale> 1 - 2.2,3.1
key_list 0:w <whale> -> 1:2.2,1:3.1,255:1.1,
do key_change 0:w <whale> 256 - 2.2
key_list 0:w <whale> -> 1:2.2,1:3.1,255:1.1,256:2.2,
do key_change 0:w <whale> 1 2.2,3.1 2.2,2.3,10.1
key_list 0:w <whale> -> 1:2.2,1:2.3,1:10.1,255:1.1,256:2.2,
do key_change 0:w <whale> 1 2.2,2.3,10.1 2.2,2.3,10.1
key_list 0:w <whale> -> 1:2.2,1:2.3,1:10.1,255:1.1,256:2.2,
do key_change 0:w <whale> 255 1.1 -
key_list 0:w <whale> -> 1:2.2,1:2.3,1:10.1,256:2.2,
do key_change 0:w <whale> 7 - -
key_list 0:w <whale> -> 1:2.2,1:2.3,1:10.1,256:2.2,
do key_change 0:w <whale> 1 2.2,2.3,10.1 -
key_list 0:w <whale> -> 256:2.2,
do key_change 0:w <whale> 256 2.2 -
key_list 0:w <whale> ->
do key_change 0:w <whale> 256 - -
key_list 0:w <whale> ->
do key_change 0:w <whale> 1 - 2.2,2.3,10.1
key_list 0:w <whale> -> 1:2.2,1:2.3,1:10.1,
do key_change 0:w <whale> 999999999 - 2.2
key_list 0:w <whale> -> 1:2.2,1:2.3,1:10.1,999999999:2.2,

# Other places than those that are held are damage.
with made default filled
do key_change 0:w <whale> 2 - 2.1,2.5,3.1
do key_change 0:w <whale> 2 - 9.9 -> Damaged
key_list 0:w <whale> -> 1:3.3,2:2.1,2:2.5,2:3.1,
do key_change 0:w <whale> 2 2.1 9.9 -> Damaged
key_list 0:w <whale> -> 1:3.3,2:2.1,2:2.5,2:3.1,
do key_change 0:w <whale> 2 2.1,2.5 9.9 -> Damaged
key_list 0:w <whale> -> 1:3.3,2:2.1,2:2.5,2:3.1,
do key_change 0:w <whale> 2 2.1,2.5,3.1,4.1 9.9 -> Damaged
key_list 0:w <whale> -> 1:3.3,2:2.1,2:2.5,2:3.1,
do key_change 0:w <whale> 2 2.1,2.5,3.2 9.9 -> Damaged
key_list 0:w <whale> -> 1:3.3,2:2.1,2:2.5,2:3.1,
do key_change 0:w <whale> 2 2.1,2.6,3.1 9.9 -> Damaged
key_list 0:w <whale> -> 1:3.3,2:2.1,2:2.5,2:3.1,
do key_change 0:w <whale> 1 2.1,2.5,3.1 9.9 -> Damaged
key_list 0:w <whale> -> 1:3.3,2:2.1,2:2.5,2:3.1,
do key_change 0:w <whale> 3 2.1,2.5,3.1 9.9 -> Damaged
key_list 0:w <whale> -> 1:3.3,2:2.1,2:2.5,2:3.1,
do key_change 0:w <whale> 1 - 9.9 -> Damaged
key_list 0:w <whale> -> 1:3.3,2:2.1,2:2.5,2:3.1,
do key_change 0:w <whale> 2 2.1,2.5,3.1 -
with posted

# A database goes with its records and its lists.
with made
do database_put Other 2
with filled default filled
use Other
do key_change 0:w <whale> 1 3.3 5.5
use Default
key_list 0:w <whale> -> 1:3.3,
use Other
key_list 0:w <whale> -> 1:5.5,
do database_take
with posted
plain SELECT count(*) FROM postings -> 16;
SELECT name, last FROM databases -> Default|2;
SELECT sysno, ident FROM records ORDER BY sysno -> 1|a1;2|b2;

# A database that was taken leaves no row, and a wipe leaves none at all.
with begun default filled
do database_take
do database_take
counts -> 3|0|0|0|0|0;
with default filled posted
do wipe
counts -> 0|0|0|0|0|0;
with default filled posted";
