//! What holds of every whole call. The functions do nothing: their clauses are the laws.

ghost use Rattle.image_defs.specs.declared.file.Claims.{Claims};
ghost use Rattle.machine_text.specs.{declared.machine.Machine.Machine, Machines.IsValid as IsValidMachine};
ghost use Rattle.net_defs.specs.{declared.netlist.Netlist.Netlist, declared.timing.Timing.Timing, Valid.IsValid};
ghost use Rattle.yse_compile.specs.{declared.compiler.Compiled.Compiled, Claims.AreClaimsOf, Chosen.IsDesign};
ghost use Rattle.yse_top.specs.{Law.AreProper, Law.HaveOutcomes, Law.TellsWords, Sequel.IsTaken, Sequel.RunsWhatIsCompiled};

use bench_read::law::{reads_or_faults as netlists_or_faults, texts_read_as_valid};
use bench_read::list_law::{reads_as_ascending, reads_or_faults as lists_or_faults};
use bench_read::stuck_law::{reads_as_faults, reads_or_faults as stuck_lists_or_faults};
use cmd_words::law::{forms_are_asked, forms_are_in_range};
use cover_sim::one_coverage;
use event_defs::law::{links_decide, steps_exist};
use fault_sim::one_list as one_list_of_verdicts;
use home_pick::law::{one_better, some_better};
use image_check::law::matches_or_not;
use image_file::law::reads_or_faults as images_or_faults;
use large_run::law::one_summary;
use machine_text::law::{
    reads_as_valid as machines_are_valid, reads_or_faults as machines_or_faults,
};
use node_defs::law::one_list;
use node_map::law::items_exist;
use plan_defs::law::items_are_well_formed;
use rank_find::order_or_loop;
use ref_sim::one_simulation;
use stim_text::lane_law::reads_or_faults as lanes_or_faults;
use stim_text::law::reads_or_faults as stimuli_or_faults;
use stim_text::order_law::{
    reads_as_valid as orders_are_valid, reads_or_faults as orders_or_faults,
};
use yse_compile::law::{
    designs_exist, fits_by_or_refused, one_image, one_linking_chosen, one_refusal, one_use,
    planned_or_refused,
};
use yse_compile::matching::designs_are_in_range;

/// Words come to one outcome over what is read, but that any loop may be named where there are several, and that
/// want of memory may come in its place; and they come to some outcome, whatever the files hold. What is read are
/// files of the command, from the first on in their order, and none after one that can't be read. Words ask for
/// a command exactly where they are of its form.
pub fn calls_are_proper()
    ensures proper { AreProper }
    ensures outcomes { HaveOutcomes }
    ensures words { TellsWords }
{
    netlists_or_faults();
    stimuli_or_faults();
    machines_or_faults();
    orders_or_faults();
    lists_or_faults();
    reads_as_ascending();
    images_or_faults();
    lanes_or_faults();
    stuck_lists_or_faults();
    reads_as_faults();
    machines_are_valid();
    orders_are_valid();
    texts_read_as_valid();
    order_or_loop();
    one_simulation();
    items_exist();
    fits_by_or_refused();
    one_refusal();
    one_linking_chosen();
    one_use();
    some_better();
    one_better();
    planned_or_refused();
    one_list();
    one_list_of_verdicts();
    one_coverage();
    items_are_well_formed();
    links_decide();
    steps_exist();
    matches_or_not();
    designs_exist();
    one_image();
    one_summary();
    forms_are_asked();
    forms_are_in_range();
}

/// A law: what is compiled is taken. Where `exec` reads the text of a compiled image with its claims, over the same
/// netlist in the same timing, it refuses neither the text nor the image. It does nothing.
pub fn compiled_images_are_taken()
    ensures { (net : Netlist) (machine : Machine) (timing : Timing) (compiled : Compiled) (claims : Claims)
        → IsValid net → IsValidMachine machine → IsDesign net machine timing compiled
        → AreClaimsOf compiled claims → IsTaken net timing (record { image = compiled.image; claims = claims }) }
{
    images_or_faults();
    matches_or_not();
    designs_are_in_range();
    one_list();
}

/// A law: what is compiled is run. After a call of `compile` and one of `run` that ended with status 0, a call of `exec`
/// with the same netlist, list, mode, turns of a cycle and initial value, of the file that holds what `compile` wrote and
/// of the stimulus of the run, writes the trace of the run, or ends for want of memory or at a fault that was counted;
/// unless the image's text is longer than a file may be. It speaks of what was read, so that it holds over real files
/// too: they held the same, as far as they were read. It does nothing.
pub fn compiled_images_run()
    ensures { RunsWhatIsCompiled }
{
    calls_are_proper();
    compiled_images_are_taken();
    netlists_or_faults();
    lists_or_faults();
    stimuli_or_faults();
    machines_are_valid();
    texts_read_as_valid();
    one_simulation();
}
