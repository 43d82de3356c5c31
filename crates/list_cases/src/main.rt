// The listing of each file of data/, one after the other.
#![tactic(auto)]

use std::fs::File;
use std::io;
use std::io::Write;

fn case(rt: &HostRuntime, path: &str) -> io::Result<()> {
    let mut out = rt.stdout();
    writeln!(out, "{path}:")?;
    match File::open(rt, path) {
        Ok(mut file) => printing::print_input(&mut out, &mut file),
        Err(e) => eprintln!(rt; "{path}: {e}"),
    }
}

fn main(rt: HostRuntime) -> io::Result<()> {
    for path in [
        "length_0",
        "length_511",
        "zeros_512",
        "e1",
        "e1_map_byte_c0",
        "e1_free_1",
        "l1",
        "l1_back_link_1",
        "map_node_linked_to_itself",
        "leaf_22_records",
        "leaf_23_records",
        "two_leaves",
        "two_leaves_pointer_below_first_key",
        "two_level",
        "two_level_levels_from_the_root_in_node_63",
        "two_level_child_33_is_parent_in_node_63",
        "two_level_key_1_lowered_and_4_at_next_pointer_in_node_60",
        "two_level_key_10_at_next_pointer_in_node_32",
        "two_level_pointer_32_far_below_first_key_in_node_63",
        "two_level_forward_link_0_in_node_60",
        "two_level_leaf_records_one_short_in_node_0",
        "falling_map_nodes_bits_13903_and_13904_flipped_in_node_13",
        "three_level",
        "written_two_level",
        "longest_listed",
        "length_65537",
        // A folder can be opened and not read.
        ".",
    ] {
        case(&rt, path)?;
    }
    Ok(())
}
