//! How many rows a call looks at, by the store's limit on the steps of a statement's query.

/// Whole tables need as many steps as they have rows, and calls on one record or one key pass under the limit. Words come in their order, so each
/// leaf but the last is full: its 1,900 bytes take 194 to 200 words.
pub static TABLES: &str = "\
do make_tables
do database_put Default 3000
do fill 3000
limit 2999
plain SELECT count(*) FROM postings -> Store
packed SELECT count(*) FROM blocks -> Store
packed SELECT count(*) FROM dict -> Store
SELECT count(*) FROM records -> Store
limit none
plain SELECT count(*) FROM postings -> 3000;
packed SELECT count(*) FROM blocks -> 3000;
packed SELECT count(*) FROM dict -> 3000;
leaves SELECT count(*) FROM blocks -> 16;
SELECT count(*) FROM records -> 3000;
limit 30
plain UPDATE postings SET seq = seq -> Store
packed UPDATE blocks SET block = block -> Store
packed UPDATE dict SET records = records -> Store
UPDATE records SET sysno = sysno -> Store
do meta_put version 1
do database_put Other 0
do database_put Default 3001
do record_put 3001 w3001 y
do record_put 7 w0007 yy
do record_take 9
do key_change 0:w <w3001> 3001 - 2.1
do key_change 0:w <w0007> 7 2.1 2.2,3.1
do key_change 0:w <w0009> 9 2.1 -
meta_of version -> 1
database_of Default -> 3001
do record_of_ident w1500 -> 1500 x
do record_of_ident w0007 -> 7 yy
ident_of 1500 -> w1500
record_from 1500 -> 1500 w1500 x
key_list 0:w <w1500> -> 1500:2.1,
key_list 0:w <w0007> -> 7:2.2,7:3.1,
terms_from 0:w <w15> 3 -> w1500 1,w1501 1,w1502 1,
terms_before 0:w <w15> 3 -> w1497 1,w1498 1,w1499 1,";
