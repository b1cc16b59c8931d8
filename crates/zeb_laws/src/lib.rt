//! Laws of the definitions that the engine's contracts cite: what follows from these alone, whatever the code does. Each law is a function
//! with no code, whose contract is the law. Two functions with code say the headline of each layout.
#![tactic(auto)]

mod definition_laws;
mod holding_laws;
mod laws;
mod layouts;
mod renewal_laws;

pub use definition_laws::{
    a_command_has_an_answer, a_command_has_one_answer, a_stat_counts_each_register_once,
    a_word_is_found_where_it_stands, an_image_is_of_one_holding, counts_add_up,
    no_definition_answers_damage, numbers_stay, one_text_one_image,
};
pub use holding_laws::{a_database_is_in_its_place, the_last_record_stays};
pub use laws::{
    a_book_is_kept, a_faulty_file_is_refused, a_query_is_answered, a_word_of_the_title_is_found,
};
pub use layouts::{lists_of_commands_over_leaves, lists_of_commands_over_packed_blocks};
pub use renewal_laws::{
    a_check_accepts_what_commands_leave, a_text_tells_the_rule, the_databases_stay,
};
