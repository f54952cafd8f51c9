//! What the definitions say together.

ghost use Rattle.std.specs.Prelude.{◌≡◌, ◌≤◌, true, ℕ};
ghost use Rattle.carousel_writer.specs.declared.files.Files.{Files};
ghost use Rattle.carousel_writer.specs.GoodFiles.{are_good_files};
ghost use Rattle.file_generator.specs.GeneratedFiles.{IsGenerated};

use carousel_blocks::law_of_block_counts;
use carousel_writer::law_of_file_sizes;

/// Generated files can be written as a stream.
pub fn law_of_generated_files()
    ensures { (files : Files) (seed count : ℕ) → count ≤ 100 → IsGenerated files seed count
        → are_good_files files ≡ true }
{
    law_of_block_counts();
    law_of_file_sizes();
}
