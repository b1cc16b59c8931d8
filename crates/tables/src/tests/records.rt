//! Records that take one another's place, and the greatest numbers.

/// The greatest number that a column stores is `2^63 - 1`, 9223372036854775807.
pub static TABLES: &str = "\
# A record takes the place of those it clashes with.
do make_tables
do database_put Other 0
do record_put 1 a1 o
kept -> Other|1|a1|6f;
do database_put Default 0
do record_put 2 b2 x
kept -> Default|2|b2|78;Other|1|a1|6f;
do record_put 1 a1
kept -> Default|1|a1|;Default|2|b2|78;Other|1|a1|6f;
# The number stays, the bytes and then the identifier change.
do record_put 1 a1 BINARY
kept -> Default|1|a1|00ff;Default|2|b2|78;Other|1|a1|6f;
do record_put 1 A1 BINARY
kept -> Default|1|A1|00ff;Default|2|b2|78;Other|1|a1|6f;
# The number of one record and the identifier of another: both go.
do record_put 1 b2 y
kept -> Default|1|b2|79;Other|1|a1|6f;
do record_take 2
kept -> Default|1|b2|79;Other|1|a1|6f;
do record_take 1
kept -> Other|1|a1|6f;
do record_take 1
kept -> Other|1|a1|6f;

# The greatest numbers are kept.
do make_tables
do database_put Default 9223372036854775807
do record_put 999999999 a1
do record_put 9223372036854775807 b2 x
do key_change 4294967295:n <999999999999999999> 999999999 - 1.9223372036854775807,\
9223372036854775807.1,9223372036854775807.9223372036854775807
key_list 4294967295:n <999999999999999999> -> 999999999:1.9223372036854775807,\
999999999:9223372036854775807.1,999999999:9223372036854775807.9223372036854775807,
terms_of 4294967295:n -> 999999999999999999 1,
database_of Default -> 9223372036854775807
records -> 999999999 a1 ,9223372036854775807 b2 x,
record_count -> 2
record_from 1000000000 -> 9223372036854775807 b2 x
do key_change 4294967295:n <999999999999999999> 999999999 1.9223372036854775807,\
9223372036854775807.1,9223372036854775807.9223372036854775807 -
postings ->

# A number that no column stores is refused: as the database's last number, the record's to be put or
# taken, the unit's or the word's. No record has such a number.
do make_tables
do database_put Default 1
do database_put Default 9223372036854775808 -> Store
do database_put Other 9223372036854775808 -> Store
do record_put 9223372036854775808 a1 -> Store
do record_take 9223372036854775808 -> Store
do key_change 4294967295:n <999999999999999999> 9223372036854775808 - - -> Store
do key_change 4294967295:n <999999999999999999> 1 - 1.1,9223372036854775808.1 -> Store
do key_change 4294967295:n <999999999999999999> 1 - 1.1,1.9223372036854775808 -> Store
ident_of 9223372036854775808 -> none
record_from 9223372036854775808 -> none
postings ->
SELECT name, last FROM databases -> Default|1;
SELECT sysno FROM records ->";
