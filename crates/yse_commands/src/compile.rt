//! The text of the image of a design.

ghost use Rattle.std.specs.Prelude.{IfOk};
ghost use Rattle.yse_commands.specs.commands.Compile.{IsImageTextOf};

use call_steps::Planned;
use image_defs::ImageFile;
use image_file::write_image;
use seen_list::{Memory, Text};
use std::alloc::Global;
use yse_compile::matching::designs_are_placed;
use yse_compile::{Compiled, claims};

/// The text of the image of a design, each of whose places claims the item that the plan puts there.
pub fn image_text_of(alloc: Global, planned: Planned) -> Result<Text, Memory>
    ensures { IfOk result (IsImageTextOf planned.homes planned.net planned.machine planned.timing) }
{
    designs_are_placed();
    let Planned { chosen, .. } = planned;
    let claims = claims(alloc, &chosen.compiled)?;
    let Compiled { image, .. } = chosen.compiled;
    write_image(alloc, &ImageFile { image, claims })
}
