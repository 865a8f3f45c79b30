mod depth;
mod indexes;
mod infos;
mod modules;
mod refusals;
mod texts;
