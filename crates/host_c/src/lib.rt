// The library for programs in C and C++: each function of `host`, exported under its name and with its clauses. include/gustparsley.h declares them.
#![tactic(auto)]

mod books;
mod calls;
mod frames;
mod graphs;
mod routines;
mod ways;
mod zones;

pub use books::{gust_book_add, gust_book_close, gust_book_find, gust_book_open, gust_book_remove};
pub use calls::{gust_next_hop, gust_plan};
pub use frames::gust_arrive;
pub use graphs::{gust_read_graph, gust_write_graph};
pub use routines::{
    gust_bundle, gust_bundle_survivors, gust_distance, gust_facts, gust_fan, gust_judge,
    gust_judge_bundle, gust_linked, gust_read_sheet, gust_route, gust_survivors, gust_write_sheet,
};
pub use ways::gust_way_round;
pub use zones::{gust_read_zoned_sheet, gust_sheet_to_1, gust_sheet_to_2, gust_write_zoned_sheet};
