//! Rows that no call writes: the calls that read them answer so, and the others as before.

/// Texts, databases and records.
pub static TABLES: &str = "\
with begun default filled
UPDATE meta SET value = CAST(x'ff' AS TEXT) WHERE name = 'profile' -> 1
meta_of profile -> Damaged
plain meta_of version -> 1

with begun default filled
UPDATE databases SET last = -1 -> 1
database_of Default -> Damaged
database_of Other -> none

# The last four don't read the damaged record.
with begun default filled
UPDATE records SET ident = CAST(x'ff' AS TEXT) WHERE sysno = 1 -> 1
ident_of 1 -> Damaged
records -> Damaged
record_from 1 -> Damaged
record_from 2 -> 2 b2 cafe
record_count -> 2
ident_of 2 -> b2
do record_of_ident b2 -> 2 cafe

# A number below 0 is passed over, and its row is counted.
with begun default filled
UPDATE records SET sysno = -1 WHERE sysno = 1 -> 1
do record_of_ident a1 -> Damaged
records -> Damaged
record_from 0 -> 2 b2 cafe
record_count -> 2
ident_of 2 -> b2
do record_of_ident b2 -> 2 cafe";

/// The rows of `postings`.
pub static OF_POSTINGS: &str = "\
with begun default filled
UPDATE postings SET sysno = -1 WHERE idx = 0 AND term = 'moby' -> 1
key_list 0:w <moby> -> Damaged
terms_of 0:w -> Damaged
totals 0:w -> Damaged
terms_from 0:w <m> 1 -> Damaged
terms_before 0:w <n> 1 -> Damaged
key_list 0:w <whale> -> 1:3.3,
terms_from 0:w <o> 2 -> or 1,the 1,
terms_before 0:w <moby> 9 -> cafe 1,dick 1,
totals 2:w -> 7 7

with begun default filled
UPDATE postings SET term = CAST(x'ff' AS TEXT) WHERE idx = 0 AND term = 'whale' -> 1
terms_of 0:w -> Damaged
totals 0:w -> Damaged
terms_from 0:w <the> 2 -> Damaged
key_list 0:w <moby> -> 1:2.1,
terms_from 0:w <the> 1 -> the 1,
terms_before 0:w <the> 1 -> or 1,

# A damaged place is not replaced.
with begun default filled
UPDATE postings SET pos = -1 WHERE idx = 0 AND term = 'moby' -> 1
do key_change 0:w <moby> 1 2.1 - -> Damaged
database_of Default -> 2
records -> 1 a1 moby,2 b2 cafe,
terms_of 0:w -> Damaged
totals 0:w -> Damaged
totals 2:w -> 7 7
key_list 2:w <moby> -> 1:2.1,";
