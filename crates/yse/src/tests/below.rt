//! Calls of the crates below the top call, against values that were worked out by hand: a file for each
//! crate. They stand here, and not each beside what it calls, so that a crate is proved once and not once
//! more for its tests.

mod items;
mod of_bench_text;
mod of_crew_run;
mod of_edge_io;
mod of_fault_sim;
mod of_func_table;
mod of_lane_planes;
mod of_large_run;
mod of_logic_four;
mod of_machine_text;
mod of_node_map;
mod of_pack_words;
mod of_rank_find;
mod of_ref_sim;
mod of_slot_words;
mod wanted;
