//! Runs of keys that one call changes.

pub static TABLES: &str = "\
# It leaves what the same changes leave key by key.
with made default filled
do run_changes 0:w <moby> 1 2.1 2.1,3.5 0:w <whale> 2 - 4.1
key_list 0:w <moby> -> 1:2.1,1:3.5,
key_list 0:w <whale> -> 1:3.3,2:4.1,
terms_of 0:w -> cafe 1,dick 1,moby 1,or 1,the 1,whale 2,
totals 0:w -> 6 8
do run_changes 0:p <moby dick> 1 2.1 - 1:n <000000000000001851> 1 4.1 5.1
key_list 0:p <moby dick> ->
terms_of 0:p -> cafe 1,
key_list 1:n <000000000000001851> -> 1:5.1,
do key_change 0:w <moby> 1 2.1,3.5 2.1
do key_change 0:w <whale> 2 4.1 -
do run_changes 0:p <moby dick> 1 - 2.1 1:n <000000000000001851> 1 5.1 4.1
with posted

# Other places than those that are held are damage, of whichever key, and neither is changed.
with made default filled
do run_changes 0:w <moby> 1 9.9 - 0:w <whale> 1 3.3 - -> Damaged
do run_changes 0:w <moby> 1 2.1 - 0:w <whale> 1 3.2 - -> Damaged
do run_changes 0:w <moby> 1 2.1 - 0:w <whale> 1 - 9.9 -> Damaged
do run_changes 0:w <moby> 1 2.1 - 0:w <whale> 2 3.3 - -> Damaged
with posted

# A number of a record is 1 to 999999999, one of a place 1 or more, and places rise.
with made default filled
do run_changes 0:w <moby> 0 - - 0:w <whale> 1 3.3 - -> Store
do run_changes 0:w <moby> 1 2.1 - 0:w <whale> 0 - 1.1 -> Store
do run_changes 0:w <moby> 1000000000 - - 0:w <whale> 1 3.3 - -> Store
do run_changes 0:w <moby> 1 2.1 - 0:w <whale> 1000000000 - 1.1 -> Store
do run_changes 0:w <moby> 1 2.1 - 0:w <whale> 2 - 0.1 -> Store
do run_changes 0:w <moby> 1 2.1 - 0:w <whale> 2 - 1.0 -> Store
do run_changes 0:w <moby> 1 2.1 - 0:w <whale> 2 - 1.2,1.1 -> Store
with posted";
