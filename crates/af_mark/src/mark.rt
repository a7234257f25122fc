//! A file's mark.
ghost use Rattle.std.specs.Prelude.{◌≡◌, ◌-◌, ◌^◌, min};
ghost use Rattle.af_mark.specs.Grey.{black_mark, color_in, grey_mark, unmarked};
ghost use Rattle.af_mark.specs.MarksView.{is_grey_color};

use crate::color::Color;
use std::marker::Model;

/// The second word of a black mark.
const BLACK: u32 = u32::MAX;

/// Clamps a position in a list of files to what 32 bits can keep, counted from 1 and below `BLACK`.
#[inline(always)]
pub fn clamp_index(at: usize) -> u32
    ensures { result ≡ min at (2 ^ 32 - 3) }
{
    at.min(BLACK as usize - 2) as u32
}

/// A file's colour, and of which pass it is.
#[derive(Drop)]
pub struct Mark {
    /// The epoch of that pass; 0 is of none.
    epoch: u32,
    /// The colour that it got then: 0 is white, and `BLACK` black. Any other is grey, and the
    /// position in the list of grey files, counted from 1: a hint, which no contract sees.
    shade: u32,
}

impl Model for Mark {
    ghost use Rattle.af_mark.specs.Grey.{MarkView, color_of};

    ghost Value = { MarkView };

    ghost view = { λ a. record { epoch = a.epoch; color = color_of a.shade } };
}

impl Mark {
    /// Makes a mark of no pass.
    #[inline(always)]
    pub fn none() -> Mark
        ensures { result ≡ unmarked }
    {
        Mark { epoch: 0, shade: 0 }
    }

    /// Makes a mark of a file that is scanned in the pass `epoch`.
    #[inline(always)]
    pub fn black(epoch: u32) -> Mark
        ensures { result ≡ black_mark epoch }
    {
        let shade = BLACK;
        Mark { epoch, shade }
    }

    /// Makes a mark of a file to be scanned in the pass `epoch`, at the position `at` of the list.
    #[inline(always)]
    pub fn grey(epoch: u32, at: usize) -> Mark
        ensures { result ≡ grey_mark epoch }
    {
        let shade = clamp_index(at) + 1;
        Mark { epoch, shade }
    }

    /// Returns the colour in the pass `epoch`.
    #[inline(always)]
    pub fn color_in(&self, epoch: u32) -> Color
        ensures { result ≡ color_in epoch self.now }
    {
        if self.epoch != epoch {
            return Color::White;
        }
        match self.shade {
            0 => Color::White,
            BLACK => Color::Black,
            _ => Color::Grey,
        }
    }

    /// Returns whether the file is grey in the pass `epoch`.
    #[inline(always)]
    pub fn is_grey_in(&self, epoch: u32) -> bool
        ensures { result ≡ is_grey_color (color_in epoch self.now) }
    {
        matches!(self.color_in(epoch), Color::Grey)
    }

    /// Returns the position of a grey file in the list: a hint.
    #[inline(always)]
    pub fn position(&self) -> usize {
        self.shade.saturating_sub(1) as usize
    }

    /// Sets the position, if the file is grey. Does not change its colour.
    #[inline(always)]
    pub fn set_position(&mut self, at: usize)
        ensures { self.new ≡ self.old }
    {
        if self.shade > 0 && self.shade < BLACK {
            self.shade = clamp_index(at) + 1;
        }
    }
}
