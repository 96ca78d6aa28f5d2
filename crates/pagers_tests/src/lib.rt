// Pagers run on small examples, and on image files made for the purpose.
#![tactic(auto)]

#[cfg(test)]
mod files;
#[cfg(test)]
mod images;
#[cfg(test)]
mod piles;
