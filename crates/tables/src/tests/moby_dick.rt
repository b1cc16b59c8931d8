//! Two records as the tables hold them, and what each call reads there.

/// The tables, and the texts that the store keeps of itself under a profile with the indexes Title (0), Date (1) and Any (2).
pub static BEGUN: &str = "\
do make_tables
do version
do meta_put profile identifier 001;att 4 Title;att 31 Date;att 1016 Any;\
melm 245$a Title:w,Title:p;melm 245 Title:w;melm 260$c Date:n;all Any:w;
do meta_put identifier 001";

/// The two records, and what they are found by. Unit 1 is their field 001, unit 2 is 245$a, and in the first record unit 3 is
/// 245$b and unit 4 is 260$c.
pub static FILLED: &str = "\
do record_put 1 a1 moby
do record_put 2 b2 cafe
do key_change 0:w <cafe> 2 - 2.1
do key_change 0:w <dick> 1 - 2.2
do key_change 0:w <moby> 1 - 2.1
do key_change 0:w <or> 1 - 3.1
do key_change 0:w <the> 1 - 3.2
do key_change 0:w <whale> 1 - 3.3
do key_change 0:p <cafe> 2 - 2.1
do key_change 0:p <moby dick> 1 - 2.1
do key_change 1:n <000000000000001851> 1 - 4.1
do key_change 2:w <c1851> 1 - 4.1
do key_change 2:w <cafe> 2 - 2.1
do key_change 2:w <dick> 1 - 2.2
do key_change 2:w <moby> 1 - 2.1
do key_change 2:w <or> 1 - 3.1
do key_change 2:w <the> 1 - 3.2
do key_change 2:w <whale> 1 - 3.3";

/// Their postings as rows; in packed tables one row of `dict` and one block for each key; in leaves one leaf for each register.
pub static POSTED: &str = "\
plain postings -> \
Default|0|0|cafe|2|2|1;Default|0|0|dick|1|2|2;\
Default|0|0|moby|1|2|1;Default|0|0|or|1|3|1;\
Default|0|0|the|1|3|2;Default|0|0|whale|1|3|3;\
Default|0|1|cafe|2|2|1;Default|0|1|moby dick|1|2|1;\
Default|1|2|000000000000001851|1|4|1;Default|2|0|c1851|1|4|1;\
Default|2|0|cafe|2|2|1;Default|2|0|dick|1|2|2;\
Default|2|0|moby|1|2|1;Default|2|0|or|1|3|1;\
Default|2|0|the|1|3|2;\
Default|2|0|whale|1|3|3;
packed postings ->
packed SELECT count(*) FROM dict WHERE records = 1 -> 16;
packed SELECT count(*) FROM blocks WHERE block = 0 -> 16;
leaves postings ->
leaves SELECT count(*) FROM dict -> 0;
leaves SELECT name, idx, reg, term, block, data FROM blocks JOIN databases ON id = db ORDER BY name, idx, reg -> \
Default|0|0||0|00046361666500010302020100046469636b00010301020200046d6f627900010301020100026f72000103010301000374686500010301030200057768616c65000103010303;\
Default|0|1||0|00046361666500010302020100096d6f6279206469636b000103010201;\
Default|1|2||0|0012303030303030303030303030303031383531000103010401;\
Default|2|0||0|00056331383531000103010401010361666500010302020100046469636b00010301020200046d6f627900010301020100026f72000103010301000374686500010301030200057768616c65000103010303;";

/// What is read where the two records are.
pub static ANSWERS: &str = "\
plain meta_of version -> 1
packed meta_of version -> 2
leaves meta_of version -> 3
meta_of profile -> identifier 001;att 4 Title;att 31 Date;att 1016 Any;\
melm 245$a Title:w,Title:p;melm 245 Title:w;melm 260$c Date:n;all Any:w;
meta_of identifier -> 001
meta_of Version -> none
meta_of -> none
database_of Default -> 2
database_of default -> none
database_of Defaul -> none
database_of -> none
do record_of_ident a1 -> 1 moby
do record_of_ident b2 -> 2 cafe
do record_of_ident A1 -> none
do record_of_ident -> none
ident_of 1 -> a1
ident_of 2 -> b2
ident_of 3 -> none
records -> 1 a1 moby,2 b2 cafe,
record_count -> 2
record_from 0 -> 1 a1 moby
record_from 1 -> 1 a1 moby
record_from 2 -> 2 b2 cafe
record_from 3 -> none
key_list 0:w <moby> -> 1:2.1,
key_list 0:w <cafe> -> 2:2.1,
key_list 0:p <moby> ->
key_list 0:p <moby dick> -> 1:2.1,
key_list 1:n <000000000000001851> -> 1:4.1,
key_list 1:n <1851> ->
key_list 2:w <c1851> -> 1:4.1,
key_list 3:w <moby> ->
terms_of 0:w -> cafe 1,dick 1,moby 1,or 1,the 1,whale 1,
terms_of 0:p -> cafe 1,moby dick 1,
terms_of 0:n ->
terms_of 1:n -> 000000000000001851 1,
terms_from 0:w <d> 2 -> dick 1,moby 1,
terms_before 0:w <p> 2 -> moby 1,or 1,
totals 0:w -> 6 6
totals 0:p -> 2 2
totals 0:n -> 0 0
totals 1:n -> 1 1
totals 2:w -> 7 7
totals 3:w -> 0 0";

pub static TABLES: &str = "\
# Each call reads what the tables hold.
with begun default filled
plain SELECT name, value FROM meta WHERE name <> 'profile' ORDER BY name -> \
identifier|001;version|1;
SELECT name, last FROM databases -> Default|2;
SELECT name, sysno, ident, length(bytes) FROM records JOIN databases ON id = db ORDER BY sysno -> \
Default|1|a1|109;Default|2|b2|64;
# Tables that are there keep their rows.
with made posted
plain counts -> 3|1|2|16|0|0;
packed counts -> 3|1|2|0|16|16;
leaves counts -> 3|1|2|0|4|0;
with answers

# A name keeps its database.
with begun default filled
do database_put default 0
ident_of 2 -> none
do database_put Default 7
ident_of 2 -> b2
database_of Default -> 7
database_of default -> 0";
