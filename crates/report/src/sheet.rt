// The figures for a person: hours and minutes, and a bar for each.
use hours::Figures;
use std::fmt;

// A bar has as many marks.
const MARKS: u64 = 40;

// Minutes that are a part of a whole.
#[derive(Clone, Copy, Debug, PartialEq, Eq)]
struct Part {
    part: u32,
    whole: u32,
}

impl Part {
    // How many marks stand for the part: one for the least part, all for the whole.
    fn marks(self) -> u64 {
        if self.whole == 0 {
            return 0;
        }
        (u64::from(self.part) * MARKS).div_ceil(u64::from(self.whole))
    }
}

impl fmt::Display for Part {
    fn fmt<W: fmt::Write>(&self, f: &mut fmt::Formatter<W>) -> fmt::Result {
        let hours = self.part / 60;
        let minutes = self.part % 60;
        write!(f, "{hours:>8} h {minutes:02} min")?;
        if self.part > 0 {
            write!(f, "  ")?;
        }
        for _mark in 0..self.marks() {
            write!(f, "#")?;
        }
        Ok(())
    }
}

// The figures of an accepted log: the bars of the first three are parts of the whole time, the others of the minutes awake.
#[derive(Clone, Copy, Debug, PartialEq, Eq)]
pub struct Sheet {
    pub figures: Figures,
    pub roles: usize,
}

impl fmt::Display for Sheet {
    fn fmt<W: fmt::Write>(&self, f: &mut fmt::Formatter<W>) -> fmt::Result {
        let figures = self.figures;
        let (total, awake) = (figures.total, figures.awake);
        let of_total = |part| Part { part, whole: total };
        let of_awake = |part| Part { part, whole: awake };
        writeln!(f, "first to last  {}", of_total(total))?;
        writeln!(f, "asleep         {}", of_total(figures.asleep))?;
        writeln!(f, "awake          {}", of_total(awake))?;
        writeln!(f, "awake, awaiting")?;
        for (role, part) in figures.alone.iter().enumerate().take(self.roles) {
            writeln!(f, "role {role:>2} alone  {}", of_awake(*part))?;
        }
        writeln!(f, "several roles  {}", of_awake(figures.several))?;
        writeln!(f, "nobody         {}", of_awake(figures.nobody))
    }
}
