// Where the sections of a sheet begin, from its counts.
ghost use Rattle.std.specs.Prelude.{◌≡◌};
ghost use Rattle.model.specs.Judge.{Small};
ghost use Rattle.model.specs.Layout as layout;

use model::Counts;

// The counts of a sheet that refusal 2 lets pass.
// `Layout { counts }` is written out at each use: a method for it would be no plainer, since what a literal holds is known without a clause.
#[derive(Clone, Copy)]
pub struct Layout {
    pub counts: Counts,
    ghost small: { Small counts },
}

impl Layout {
    pub fn roads(self) -> usize
        ensures { result ≡ layout.roads_at self.counts }
    {
        168 + self.counts.p * 24
    }

    pub fn lists(self) -> usize
        ensures { result ≡ layout.lists_at self.counts }
    {
        self.roads() + self.counts.e * 32
    }

    pub fn numbers(self) -> usize
        ensures { result ≡ layout.numbers_at self.counts }
    {
        self.lists() + (self.counts.n + 1) * 4
    }

    pub fn rows(self) -> usize
        ensures { result ≡ layout.rows_at self.counts }
    {
        self.numbers() + self.counts.e * 4
    }

    pub fn distances(self) -> usize
        ensures { result ≡ layout.distances_at self.counts }
    {
        self.rows() + self.counts.m * 40
    }

    pub fn goals(self) -> usize
        ensures { result ≡ layout.goals_at self.counts }
    {
        self.distances() + (self.counts.n + self.counts.n) * 8
    }

    // The bytes of a goal row.
    pub fn goal_width(self) -> usize
        ensures { result ≡ layout.goal_width self.counts.n }
    {
        8 + self.counts.n * 8
    }

    pub fn total(self) -> usize
        ensures { result ≡ layout.total self.counts }
    {
        let width = self.goal_width();
        let goals = self.counts.g * width;
        self.goals() + goals
    }
}
