//! The pages of a level, from the least key to the greatest.

use crate::drawing::card::Card;
use crate::drawing::length::Length;
use crate::pen::Pen;
use crate::picture::Picture;
use bw_keys::{Fence, Key};
use bw_step::Stage;

/// What lies between two cards.
pub(crate) const BETWEEN: Length = Length(24);

/// The width of the box that stands for pages that aren't drawn.
pub(crate) const HIDDEN_WIDTH: Length = Length(92);

/// The pages of a level.
#[derive(Drop)]
pub(crate) struct Row {
    pub(crate) level: u8,
    /// The pages that are drawn, from the least key on.
    pub(crate) cards: Vec<Card>,
    /// The number of pages with smaller keys that aren't drawn.
    pub(crate) hidden_before: usize,
    /// The number of pages with greater keys that aren't drawn.
    pub(crate) hidden_after: usize,
    /// The number of pages in the row of the level.
    pub(crate) in_row: usize,
    /// The number of merged pages that wait for the end of their term.
    pub(crate) merged: usize,
    pub(crate) top: Length,
}

/// The pages of a level that are drawn.
#[derive(Clone, Copy)]
pub(crate) enum Window {
    /// All of them.
    Whole,
    /// This number of them, with the one in whose range the key lies.
    Around(Key, usize),
    /// Those whose ranges have keys from the first one up to the last one.
    Over(Key, Key),
}

impl Row {
    pub(crate) fn of(pen: &mut Pen, picture: &Picture, level: u8, window: Window) -> Row {
        let order = order_of(pen, picture, level);
        let (first, end) = window.places(&order);
        let merged = merged_of(picture, level);
        let mut row = Row {
            level,
            cards: Vec::new(pen.alloc),
            hidden_before: first,
            hidden_after: order.len().saturating_sub(end),
            in_row: order.len().saturating_sub(merged),
            merged,
            top: Length(0),
        };
        for at in first..end {
            row.add(pen, picture, order.get(at));
        }
        row.widen();
        row
    }

    /// Appends the card of the page at a place of the picture.
    fn add(&mut self, pen: &mut Pen, picture: &Picture, place: Option<&(Key, usize)>) {
        if let Some((_, place)) = place
            && let Some(page) = picture.pages.get(*place)
        {
            let card = Card::of(pen, picture, page);
            pen.push(&mut self.cards, card);
        }
    }

    /// Returns the pages one level above that have terms of those that are drawn.
    pub(crate) fn window_above(&self) -> Window {
        match (self.cards.first(), self.cards.last()) {
            (Some(first), Some(last)) => Window::Over(first.view.low, last.view.low),
            _ => Window::Whole,
        }
    }

    /// Makes all columns of the row equally wide.
    fn widen(&mut self) {
        let mut characters = 0;
        for card in self.cards.iter() {
            characters = characters.max(card.characters());
        }
        for card in self.cards.iter_mut() {
            card.widen(characters);
        }
    }

    /// Places the cards from the left on, each over the middle of those below it if there is room.
    pub(crate) fn place(&mut self, left: Length, below: Option<&Row>) {
        let mut next = left;
        if self.hidden_before > 0 {
            next = next + HIDDEN_WIDTH + BETWEEN;
        }
        for card in self.cards.iter_mut() {
            card.left = next;
            if let Some(below) = below {
                card.left = next.max(below.middle_of(card) - card.width().half());
            }
            next = card.right() + BETWEEN;
        }
    }

    /// Returns the middle of the pages that begin in the range of a card of the row above, or 0.
    fn middle_of(&self, parent: &Card) -> Length {
        let mut ends: Option<(Length, Length)> = None;
        for card in self.cards.iter() {
            if parent.holds(card.view.low) {
                let (left, _) = ends.unwrap_or((card.left, card.left));
                ends = Some((left, card.right()));
            }
        }
        match ends {
            Some((left, right)) => (left + right).half(),
            None => Length(0),
        }
    }

    /// Returns where the first drawn page begins, merged or not.
    pub(crate) fn left(&self) -> Length {
        match self.cards.first() {
            Some(card) => card.left,
            None => Length(0),
        }
    }

    /// Returns where the last of what is drawn ends.
    pub(crate) fn right(&self) -> Length {
        match self.cards.last() {
            Some(card) if self.hidden_after > 0 => card.right() + BETWEEN + HIDDEN_WIDTH,
            Some(card) => card.right(),
            None => Length(0),
        }
    }

    /// Sets the cards' tops.
    pub(crate) fn set_top(&mut self, top: Length) {
        self.top = top;
        for card in self.cards.iter_mut() {
            card.top = top + card.sink();
        }
    }

    /// Returns where the lowest card ends.
    pub(crate) fn bottom(&self) -> Length {
        let mut bottom = self.top;
        for card in self.cards.iter() {
            bottom = bottom.max(card.bottom());
        }
        bottom
    }

    /// Returns the number of drawn pages that begin in the range of a card of the row above.
    pub(crate) fn begun_in(&self, parent: &Card) -> usize {
        let mut begun = 0usize;
        for card in self.cards.iter() {
            begun = begun.saturating_add(usize::from(parent.holds(card.view.low)));
        }
        begun
    }

    /// Returns whether the card of the row above has terms of pages that aren't drawn here.
    pub(crate) fn lacks_terms_of(&self, card: &Card) -> bool {
        self.begins_after(card) || self.ends_before(card)
    }

    /// Returns whether the card has keys before those of all drawn pages. A merged page has none.
    pub(crate) fn begins_after(&self, card: &Card) -> bool {
        match self.cards.first() {
            Some(first) => {
                self.hidden_before > 0
                    && card.view.stage.is_in_row()
                    && card.view.low < first.view.low
            }
            None => false,
        }
    }

    /// Returns whether the card has keys after those of all drawn pages. A merged page has none.
    pub(crate) fn ends_before(&self, card: &Card) -> bool {
        let mut end = Fence::Top;
        for it in self.cards.iter() {
            if it.view.stage.is_in_row() {
                end = it.view.high;
            }
        }
        match end {
            Fence::Key(end) => {
                self.hidden_after > 0 && card.view.stage.is_in_row() && card.view.high.is_above(end)
            }
            Fence::Top => false,
        }
    }
}

impl Window {
    /// Returns the first place of the pages, and the place after the last one.
    fn places(self, order: &[(Key, usize)]) -> (usize, usize) {
        match self {
            Window::Whole => (0, order.len()),
            Window::Around(key, most) => {
                let place = place_of(order, key);
                let latest = order.len().saturating_sub(most);
                let first = place.saturating_sub(most / 2).min(latest);
                (first, first.saturating_add(most).min(order.len()))
            }
            Window::Over(first, last) => {
                let (_, end) = begun(order, last);
                (place_of(order, first), end)
            }
        }
    }
}

/// Returns the place of the page that begins at the key, or else of the last that begins before it.
fn place_of(order: &[(Key, usize)], key: Key) -> usize {
    let (before, end) = begun(order, key);
    before.saturating_sub(usize::from(before == end))
}

/// Returns how many pages begin before the key, and how many do or begin at it.
fn begun(order: &[(Key, usize)], key: Key) -> (usize, usize) {
    let (mut before, mut end) = (0usize, 0usize);
    for (low, _) in order {
        before = before.saturating_add(usize::from(*low < key));
        end = end.saturating_add(usize::from(*low <= key));
    }
    (before, end)
}

/// Returns the places of the level's pages, by their least keys.
fn order_of(pen: &mut Pen, picture: &Picture, level: u8) -> Vec<(Key, usize)> {
    let mut order = Vec::new(pen.alloc);
    let mut place = 0usize;
    for page in picture.pages.iter() {
        if page.view.level == level {
            pen.push(&mut order, (page.view.low, place));
        }
        place = place.saturating_add(1);
    }
    pen.sort(&mut order);
    order
}

fn merged_of(picture: &Picture, level: u8) -> usize {
    let mut merged = 0usize;
    for page in picture.pages.iter() {
        if page.view.level == level && page.view.stage == Stage::Merged {
            merged = merged.saturating_add(1);
        }
    }
    merged
}
