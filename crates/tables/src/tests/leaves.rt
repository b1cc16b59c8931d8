//! Registers in leaves: what is read of leaves that are made by hand, whole, damaged or lacking, and what changes leave in leaves.

/// A leaf from the empty term on: a in record 1, b in record 1.
pub static FIRST: &str = "\
do make_tables
do database_put Default 256
INSERT INTO blocks VALUES (1, 0, 0, '', 0, x'000161000103010202000162000103010202') -> 1";

/// A leaf from block 1 of b on: b in record 256, c in records 1 and 255.
pub static SECOND: &str = "\
INSERT INTO blocks VALUES (1, 0, 0, 'b', 1, x'000162010103000202000163000207010202fe010101') -> 1";

/// What both leaves say.
pub static WHOLE: &str = "\
key_list 0:w <a> -> 1:2.2,
key_count 0:w <a> -> 1
key_list 0:w <b> -> 1:2.2,256:2.2,
key_count 0:w <b> -> 2
key_list 0:w <c> -> 1:2.2,255:1.1,
key_count 0:w <c> -> 2
key_list 0:w <aa> ->
key_count 0:w <aa> -> 0
key_list 0:w <d> ->
key_count 0:w <d> -> 0
postings_between 0:w <a> <a> 0 -> 1:2.2,
postings_between 0:w <a> <b> 0 -> 1:2.2,1:2.2,256:2.2,
postings_between 0:w <b> <d> 0 -> 1:2.2,256:2.2,1:2.2,255:1.1,
postings_between 0:w <aa> <az> 0 ->
postings_between 0:w <c> <a> 0 ->
terms_of 0:w -> a 1,b 2,c 2,
totals 0:w -> 3 5
terms_from 0:w <> 9 -> a 1,b 2,c 2,
terms_from 0:w <a> 1 -> a 1,
terms_from 0:w <b> 1 -> b 2,
terms_from 0:w <aa> 2 -> b 2,c 2,
terms_from 0:w <b> 0 ->
terms_from 0:w <d> 2 ->
terms_before 0:w <z> 2 -> b 2,c 2,
terms_before 0:w <c> 1 -> b 2,
terms_before 0:w <c> 9 -> a 1,b 2,
terms_before 0:w <aa> 1 -> a 1,
terms_before 0:w <c> 0 ->
terms_before 0:w <a> 1 ->
terms_before 0:w <> 3 ->";

pub static TABLES: &str = "\
# There is no leaf.
do make_tables
do database_put Default 256
key_list 0:w <a> ->
key_count 0:w <a> -> 0
key_list 0:w <b> ->
key_count 0:w <b> -> 0
postings_between 0:w <a> <b> 0 ->
terms_of 0:w ->
totals 0:w -> 0 0
terms_from 0:w <a> 1 ->
terms_before 0:w <a> 1 ->

# Both are whole, and then the second is cut.
with first second whole
UPDATE blocks SET data = x'00' WHERE block = 1 -> 1
key_list 0:w <a> -> 1:2.2,
key_count 0:w <a> -> 1
key_list 0:w <b> -> Damaged
key_count 0:w <b> -> Damaged
key_list 0:w <c> -> Damaged
key_count 0:w <c> -> Damaged
key_list 0:w <d> -> Damaged
key_count 0:w <d> -> Damaged
key_list 0:w <aa> ->
key_count 0:w <aa> -> 0
postings_between 0:w <a> <aa> 0 -> 1:2.2,
postings_between 0:w <a> <b> 0 -> Damaged
postings_between 0:w <c> <d> 0 -> Damaged
postings_between 0:w <d> <a> 0 ->
terms_of 0:w -> Damaged
totals 0:w -> Damaged
terms_from 0:w <a> 1 -> a 1,
terms_from 0:w <a> 2 -> Damaged
terms_from 0:w <b> 1 -> Damaged
terms_from 0:w <c> 1 -> Damaged
terms_from 0:w <b> 0 ->
terms_before 0:w <b> 1 -> a 1,
terms_before 0:w <c> 1 -> Damaged
terms_before 0:w <d> 2 -> Damaged

# The first is cut: where it lies behind the last term that is asked for, that isn't told.
with first second
UPDATE blocks SET data = x'00' WHERE block = 0 -> 1
terms_from 0:w <c> 1 -> c 2,
terms_from 0:w <b> 1 -> Damaged
terms_from 0:w <a> 1 -> Damaged
terms_before 0:w <z> 1 -> c 2,
terms_before 0:w <z> 2 -> Damaged
terms_before 0:w <b> 1 -> Damaged

# There is no first leaf: a key below each leaf is damaged.
do make_tables
do database_put Default 256
with second
key_list 0:w <a> -> Damaged
key_count 0:w <a> -> Damaged
key_list 0:w <b> -> Damaged
key_count 0:w <b> -> Damaged
key_list 0:w <c> -> 1:2.2,255:1.1,
key_count 0:w <c> -> 2
postings_between 0:w <a> <c> 0 -> Damaged
postings_between 0:w <c> <d> 0 -> 1:2.2,255:1.1,
terms_of 0:w -> Damaged
totals 0:w -> Damaged
terms_from 0:w <b> 1 -> Damaged
terms_from 0:w <c> 1 -> c 2,
terms_before 0:w <d> 1 -> c 2,
terms_before 0:w <d> 2 -> Damaged
terms_before 0:w <a> 1 -> Damaged
terms_before 0:w <> 1 ->

# The first also has c in record 1, which the second covers: nobody reads that c.
with first second
UPDATE blocks SET data = x'000161000103010202000162000103010202000163000103010202' WHERE block = 0 -> 1
terms_of 0:w -> a 1,b 2,c 2,
totals 0:w -> 3 5

# The first says of a that two records have it, where its block has one: that is counted and not summed.
with first second
UPDATE blocks SET data = x'000161000203010202000162000103010202' WHERE block = 0 -> 1
terms_of 0:w -> a 2,b 2,c 2,
totals 0:w -> Damaged

# The first has a and the byte 0xff in place of b, which isn't UTF-8.
with first second
UPDATE blocks SET data = x'0001610001030102020101ff000103010202' WHERE block = 0 -> 1
key_list 0:w <a> -> Damaged
key_count 0:w <a> -> Damaged
key_list 0:w <b> -> Damaged
key_count 0:w <b> -> Damaged
key_list 0:w <c> -> 1:2.2,255:1.1,
key_count 0:w <c> -> 2
terms_of 0:w -> Damaged
totals 0:w -> Damaged

# The second's own term is the byte 0x80, and so isn't UTF-8.
with first second
UPDATE blocks SET term = CAST(x'80' AS TEXT) WHERE block = 1 -> 1
key_list 0:w <a> -> 1:2.2,
key_count 0:w <a> -> 1
key_list 0:w <\u{e9}> -> Damaged
key_count 0:w <\u{e9}> -> Damaged
terms_of 0:w -> Damaged
totals 0:w -> Damaged

# What is written is read, and then b leaves record 256.
do make_tables
do database_put Default 256
do key_change 0:w <b> 256 - 2.2
do key_change 0:w <a> 1 - 2.2
do key_change 0:w <c> 255 - 1.1
do key_change 0:w <b> 1 - 2.2
do key_change 0:w <c> 1 - 2.2
with whole
do key_change 0:w <b> 256 2.2 -
key_list 0:w <b> -> 1:2.2,
key_count 0:w <b> -> 1
key_list 0:w <c> -> 1:2.2,255:1.1,
key_count 0:w <c> -> 2
terms_of 0:w -> a 1,b 1,c 2,
totals 0:w -> 3 4

# Other places than a record has are damage.
with first second
do key_change 0:w <a> 1 1.1 - -> Damaged
with whole

# a comes to stand a thousand times in record 1, and b and c leave records 256, 1 and 255. The first leaf is parted: a has 3,000 bytes in
# its block, seven beside it, and so a leaf of its own. The last leaf is empty. Then the same postings are there again as at first.
with first second
do key_change 0:w <c> 1 2.2 -
do key_change 0:w <a> 1 2.2 1.1-1000
do key_change 0:w <b> 256 2.2 -
do key_change 0:w <c> 255 1.1 -
key_list 0:w <b> -> 1:2.2,
key_count 0:w <b> -> 1
key_list 0:w <c> ->
key_count 0:w <c> -> 0
postings_between 0:w <b> <d> 0 -> 1:2.2,
terms_of 0:w -> a 1,b 1,
totals 0:w -> 2 1001
SELECT length(data) FROM blocks WHERE term = '' -> 3007;
SELECT term, block, data FROM blocks WHERE term = 'b' ORDER BY block -> b|0|000162000103010202;b|1|;
do key_change 0:w <a> 1 1.1-1000 2.2
do key_change 0:w <b> 256 - 2.2
do key_change 0:w <c> 255 - 1.1
do key_change 0:w <c> 1 - 2.2
with whole
SELECT term, block, data FROM blocks ORDER BY term, block -> \
|0|000161000103010202;b|0|000162000103010202;b|1|00016201010300020200016300020701\
0202fe010101;";
