//! Marks of variables.
ghost use Rattle.std.specs.Prelude.{◌≡◌, ℕ, ◌-◌, ◌≤◌, ◌^◌, ◌||◌, length};
ghost use Rattle.std.specs.List.{All};
ghost use Rattle.sat_terms.specs.Literals.{IsLiteralOf};
ghost use Rattle.conflict_analysis.specs.Marks.{is_marked, mark_count, names_beside};

/// Marks the variables of the clause's literals other than `lit`. It takes the number of marks and
/// answers what this is then.
pub(crate) fn mark_others(marks: &mut Vec<bool>, clause: &[i32], lit: i32, left: u32) -> u32
    requires small { length marks.old.items ≤ 2 ^ 31 }
    requires named { All (IsLiteralOf (length marks.old.items - 1)) clause.now }
    requires counted { left ≡ mark_count marks.old.items }
    ensures length { length marks.new.items ≡ length marks.old.items }
    ensures counted { result ≡ mark_count marks.new.items }
    ensures marks { (v : ℕ) → is_marked marks.new.items v
        ≡ (is_marked marks.old.items v || names_beside lit clause.now v) }
{
    let mut left = left;
    for other in clause {
        let variable = other.unsigned_abs() as usize;
        if *other != lit && !marks[variable] {
            marks[variable] = true;
            left += 1;
        }
    }
    left
}
