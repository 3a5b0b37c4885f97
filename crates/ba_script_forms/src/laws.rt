//! The law of all lines.
ghost use Rattle.std.specs.Prelude.{◌≡◌, ◌⊎◌, ℕ, List, Option, Some};
ghost use Rattle.ba_script_forms.specs.Readings.{IsLine, bad_column};
ghost use Rattle.ba_script_forms.specs.declared.readings.Form.{Form};
ghost use Rattle.ba_script_forms.specs.declared.readings.Reading.{Reading};

/// A line says something or is bad at one column, whatever form was chosen before, and what it says is one thing.
pub fn lines_mean_one_thing()
    // One of these at least.
    ensures some { (chosen : Option Form) (line : List ℕ)
        → ((r : Reading) × IsLine chosen r line) ⊎ ((column : ℕ) × (bad_column chosen line ≡ Some column)) }

    // And one at most.
    ensures one { (chosen : Option Form) (r s : Reading) (line : List ℕ) → IsLine chosen r line → IsLine chosen s line → r ≡ s }
    ensures bad { (chosen : Option Form) (r : Reading) (line : List ℕ) (column : ℕ) → IsLine chosen r line → bad_column chosen line ≡ Some column → ⊥ }
{}
